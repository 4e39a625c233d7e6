ghost use Rattle.std.specs.Prelude.{◌≡◌, ◌++◌, ◌∷◌, [], OnOk, OnErr};

use std::alloc::{AllocError, Global};
use std::marker::Model;

/// A file that was asked for: its name, and the most bytes that it may have.
#[derive(Drop)]
pub(crate) struct Request {
    name: String,
    room: u64,
}

impl Model for Request {
    ghost use Rattle.std.specs.Prelude.{string_bytes};
    ghost use Rattle.det_host.specs.Outside.{Request};
    ghost use Rattle.det_host.specs.Held.{coded_request};

    ghost Value = { Request };

    ghost coded = { coded_request };

    ghost view = { λ r. record { name = string_bytes r.name; room = r.room } };
}

/// Puts a request behind those that were made.
pub(crate) fn ask(
    alloc: Global,
    asked: &mut Vec<Request>,
    name: &str,
    room: u64,
) -> Result<(), AllocError>
    ensures ok { OnOk result (asked.new.items ≡ asked.old.items ++ record { name = name.now; room = room } ∷ []) }
    ensures err { OnErr result (asked.new.items ≡ asked.old.items) }
{
    let name = name.to_string(alloc)?;
    asked.push(Request { name, room })?;
    Ok(())
}
