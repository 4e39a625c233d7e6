ghost use Rattle.std.specs.Prelude.{◌≡◌, ◌≤◌, ◌<◌};
ghost use Rattle.parcel_model.specs.Nodes as model;

/// The home of a space of this number, among `nodes` nodes, at least 1: what is left of the number's high byte, divided by them.
pub fn node_of(number: u16, nodes: u32) -> u32
    requires { 1 ≤ nodes }
    ensures home { result ≡ model.node_of number nodes }
    ensures below { result < nodes }
{
    u32::from(number) / 256 % nodes
}
