ghost use Rattle.std.specs.Prelude.{◌≡◌, ◌≤◌, true, false, leb, length, map, option_map, IfOk};
ghost use Rattle.std.specs.List.Sorted.{IsNonDecreasingBy, IsPartitionPoint};
ghost use Rattle.symbols.specs.Symbols.{IsArranged, place_at, place_of, symbol_of};

use std::alloc::AllocError;
use std::marker::Model;

/// A name of an address.
#[derive(Drop)]
pub struct Symbol {
    /// The address that it stands for.
    pub address: u32,
    /// The name: any bytes.
    pub name: Vec<u8>,
}

/// An address, by a symbol.
#[derive(Clone, Copy, Debug, PartialEq, Eq)]
pub struct Place<'a> {
    /// The symbol's name.
    pub name: &'a [u8],
    /// How many bytes the address is past the symbol's.
    pub offset: u32,
}

/// Symbols in ascending order of their addresses. Contracts see a list of them.
#[derive(Drop)]
pub struct Symbols {
    symbols: Vec<Symbol>,
}

impl Model for Symbols {
    ghost use Rattle.std.specs.Prelude.{List, map};
    ghost use Rattle.std.specs.List.Sorted.{IsNonDecreasingBy};
    ghost use Rattle.symbols.specs.Symbols.{Symbol, symbol_of};

    ghost Value = { List Symbol };

    ghost view = { λ s. map symbol_of s.symbols.items };

    ghost invariant = { λ s. IsNonDecreasingBy (λ x. x.address) s.symbols.items };
}

// How many symbols are not above the address.
fn count_up_to(symbols: &[Symbol], address: u32) -> usize
    requires ascending { IsNonDecreasingBy (λ s. s.address) symbols.now }
    ensures point { IsPartitionPoint (λ s. leb s.address address ≡ true) (λ s. leb s.address address ≡ false) symbols.now result }
    ensures bound { result ≤ length symbols.now }
{
    symbols.partition_point(
        |symbol: &Symbol| -> bool
            ensures { result ≡ leb symbol.now.address address }
        { symbol.address <= address },
    )
}

impl Symbols {
    /// These symbols in ascending order of their addresses; those of one address stay in their order. The one error is want of memory.
    pub fn new(symbols: Vec<Symbol>) -> Result<Symbols, AllocError>
        ensures { IfOk result (λ s. IsArranged (map symbol_of symbols.items) s) }
    {
        let mut symbols = symbols;
        symbols.sort_by_key(
            |symbol: &Symbol| -> u32
                ensures { result ≡ symbol.now.address }
            { symbol.address },
        )?;
        Ok(Symbols { symbols })
    }

    /// The place at an address: the last symbol that is not above it, and how far behind that. None where each is above it. Found by halving.
    pub fn place_at(&self, address: u32) -> Option<Place<'_>>
        ensures { option_map place_of result ≡ place_at self.now address }
    {
        let count = count_up_to(&self.symbols, address);
        if count == 0 {
            return None;
        }
        let symbol = &self.symbols[count - 1];
        Some(Place {
            name: &symbol.name,
            offset: address - symbol.address,
        })
    }
}
