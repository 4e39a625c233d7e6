ghost use Rattle.std.specs.Prelude.{◌≡◌, ◌+◌, IfOk, OnOk, OnErr};
ghost use Rattle.call_model.specs.declared.Call.TheVariants.{PutTree, GetTree};
ghost use Rattle.space_model.specs.Call.{edit, copy_to, place, below};
ghost use Rattle.space_model.specs.Event.{MayPay};
ghost use Rattle.space_model.specs.Meeting.{space_or_fresh, with_copy};
ghost use Rattle.space_model.specs.Space.{space, none, children_of, find, top_of};
ghost use Rattle.space_model.specs.Caller.{with_action};

use space_tree::{Children, Space, Top, copy_child};
use std::alloc::{AllocError, Global};

// The child of that number becomes this copy; where there is none, it goes. At an error the children are as they were.
fn place_copy(
    alloc: Global,
    children: &mut Children,
    number: u16,
    copy: Option<Space>,
) -> Result<(), AllocError>
    ensures ok { OnOk result (children.new ≡ edit (copy_to number copy) children.old) }
    ensures err { OnErr result (children.new ≡ children.old) }
{
    match copy {
        Some(space) => children.insert(alloc, number, space),
        None => {
            children.remove(number);
            Ok(())
        }
    }
}

// As `place_copy`, of a child's children.
fn place_below(
    alloc: Global,
    child: &mut Space,
    number: u16,
    copy: Option<Space>,
) -> Result<(), AllocError>
    ensures ok { OnOk result (child.new ≡ with_copy number copy child.old) }
    ensures err { OnErr result (child.new ≡ child.old) }
{
    place_copy(alloc, &mut child.children, number, copy)
}

// The child that Put with Tree makes, with the copy as its child.
fn make_child(
    alloc: Global,
    caller: &Top,
    number: u16,
    copy: Option<Space>,
) -> Result<Space, AllocError>
    ensures { IfOk result (λ made. made ≡ with_copy number copy (space_or_fresh caller.now None)) }
{
    let mut made = Space::alone(alloc, Top::fresh(alloc, caller.total_fuel()));
    place_below(alloc, &mut made, number, copy)?;
    Ok(made)
}

// Child `to` of child `child` becomes this copy; a missing child is made. At an error the children are as they were.
fn place_in_child(
    alloc: Global,
    caller: &Top,
    children: &mut Children,
    child: u16,
    to: u16,
    copy: Option<Space>,
) -> Result<(), AllocError>
    ensures ok { let cs = children.old in OnOk result (children.new ≡ edit (place child (with_copy to copy (space_or_fresh caller.now (find child cs)))) cs) }
    ensures err { OnErr result (children.new ≡ children.old) }
{
    match children.get_mut(child) {
        Some(there) => place_below(alloc, there, to, copy),
        None => {
            let made = make_child(alloc, caller, to, copy)?;
            children.insert(alloc, child, made)
        }
    }
}

// What Put with Tree does that no test stops, of a caller that has not paid yet. At an error nothing is changed.
pub fn put_tree(
    alloc: Global,
    child: u16,
    from: u16,
    to: u16,
    space: &mut Space,
) -> Result<(), AllocError>
    requires { MayPay (top_of space.old) }
    ensures ok { OnOk result (space.new ≡ with_action (PutTree child from to) space.old) }
    ensures err { OnErr result (space.new ≡ space.old) }
{
    let copy = copy_child(alloc, &mut space.children, from)?;
    place_in_child(alloc, &space.top, &mut space.children, child, to, copy)?;
    space.top.pay_and_succeed();
    Ok(())
}

// A copy of child `from` of the child of that number, with all below it. The children are as they were.
fn copy_grandchild(
    alloc: Global,
    children: &mut Children,
    number: u16,
    from: u16,
) -> Result<Option<Space>, AllocError>
    ensures ok { IfOk result (λ copy. copy ≡ find from (below (find number children.old))) }
    ensures same { children.new ≡ children.old }
{
    match children.get_mut(number) {
        Some(child) => copy_below(alloc, child, from),
        None => Ok(None),
    }
}

// A copy of a child of a space. The space is as it was.
fn copy_below(alloc: Global, space: &mut Space, from: u16) -> Result<Option<Space>, AllocError>
    ensures ok { IfOk result (λ copy. copy ≡ find from (children_of space.old)) }
    ensures same { space.new ≡ space.old }
{
    copy_child(alloc, &mut space.children, from)
}

// What Get with Tree does, of a caller that has not paid yet. At an error nothing is changed.
pub fn get_tree(
    alloc: Global,
    child: u16,
    from: u16,
    to: u16,
    space: &mut Space,
) -> Result<(), AllocError>
    requires { MayPay (top_of space.old) }
    ensures ok { OnOk result (space.new ≡ with_action (GetTree child from to) space.old) }
    ensures err { OnErr result (space.new ≡ space.old) }
{
    let copy = copy_grandchild(alloc, &mut space.children, child, from)?;
    place_copy(alloc, &mut space.children, to, copy)?;
    space.top.pay_and_succeed();
    Ok(())
}
