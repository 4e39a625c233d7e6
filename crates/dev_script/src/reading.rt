ghost use Rattle.std.specs.Prelude.{◌≡◌, ℕ, OnOk, IfOk, IfErr, Ok, Err};
ghost use Rattle.fault_model.specs.Gives.{Gives};
ghost use Rattle.dev_script.specs.Refused.{NamesRefused};
ghost use Rattle.dev_script.specs.View.{item_view, no_devices, script_view, with_item};
ghost use Rattle.device_model.specs.Devices as model;
ghost use Rattle.script_model.specs.Reading.{script_of};
ghost use Rattle.script_model.specs.Script.{ScriptOf, IsFirstRefused};

use crate::console::Console;
use crate::devices::Devices;
use crate::fault::{ScriptFault, bad};
use crate::feeds::{ByteFeed, NumberFeed};
use crate::item::{Item, item_of};
use std::alloc::{AllocError, Global};
use text_lines::first_line;

/// What the lines so far have said.
#[derive(Drop)]
struct Script {
    input: Vec<u8>,
    clocks: Vec<u32>,
    numbers: Vec<u32>,
}

// A script of no line.
fn blank(alloc: Global) -> Script
    ensures { script_view result ≡ no_devices }
{
    Script {
        input: Vec::new(alloc),
        clocks: Vec::new(alloc),
        numbers: Vec::new(alloc),
    }
}

// Adds what a line says behind what was said before.
fn add(script: &mut Script, item: Item) -> Result<(), AllocError>
    ensures { OnOk result (script_view script.new ≡ with_item (script_view script.old) (item_view item)) }
{
    match item {
        Item::Nothing => Ok(()),
        Item::Input(bytes) => script.input.extend_from_slice(&bytes),
        Item::Clock(number) => Ok(script.clocks.push(number)?),
        Item::Random(number) => Ok(script.numbers.push(number)?),
    }
}

// What all lines say, or the first line that is refused.
fn lines_of(alloc: Global, bytes: &[u8]) -> Result<Script, ScriptFault>
    ensures { Gives script_view result (script_of bytes.now) }
{
    let mut script = blank(alloc);
    let mut number = 1;
    let mut rest = bytes;
    while !rest.is_empty() {
        let (line, after) = first_line(rest);
        match item_of(alloc, line)? {
            Some(item) => add(&mut script, item)?,
            None => return Err(bad(number)),
        }
        number += 1;
        rest = after;
    }
    Ok(script)
}

// The devices of these lines, with nothing on the console.
fn devices_of(alloc: Global, script: Script) -> Result<Devices, AllocError>
    ensures { IfOk result (λ devices. devices ≡ script_view script) }
{
    Ok(Devices {
        input: ByteFeed::new(alloc, script.input)?,
        clocks: NumberFeed::new(alloc, script.clocks)?,
        numbers: NumberFeed::new(alloc, script.numbers)?,
        console: Console::new(alloc),
    })
}

fn whole(alloc: Global, bytes: &[u8]) -> Result<Devices, ScriptFault>
    ensures { Gives (λ d. d) result (script_of bytes.now) }
{
    let script = lines_of(alloc, bytes)?;
    let devices = devices_of(alloc, script)?;
    Ok(devices)
}

/// The devices that a script makes, with nothing on the console. Each of its lines is `in TEXT`, `in`, `raw HEX`, `clock N`,
/// `rand N`, empty, or begins with `#`. A line feed ends a line, the last may lack it, and one carriage return at a line's end
/// is dropped. `in` gives the text and a line feed to the input, and `raw` bytes in pairs of hexadecimal digits; `clock` and
/// `rand` give numbers of 1 to 10 decimal digits up to 4,294,967,295. An error is the first line that is none of these, or
/// want of memory.
pub fn read_script(alloc: Global, bytes: &[u8]) -> Result<Devices, ScriptFault>
    // What is read is what the lines say.
    ensures found { IfOk result (λ d. ScriptOf bytes.now d) }
    // A script is read, unless memory runs out.
    ensures only { (d : model.Devices) → ScriptOf bytes.now d → Gives (λ x. x) result (Ok d) }
    // The line that is named is the first one that is refused.
    ensures named { IfErr result (λ e. NamesRefused e bytes.now) }
    // The first line that is refused is named, unless memory runs out.
    ensures refused { (n : ℕ) → IsFirstRefused bytes.now n → Gives (λ x. x) result (Err (record { line = n })) }
    // The same as a function of the bytes.
    ensures exact { Gives (λ d. d) result (script_of bytes.now) }
{
    whole(alloc, bytes)
}
