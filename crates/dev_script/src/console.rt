ghost use Rattle.std.specs.Prelude.{◌≡◌, ℕ, ◌+◌, ◌<◌, ◌≤◌, ◌++◌, List, [], true, false, length, take, drop, IfOk, OnOk, OnErr};
ghost use Rattle.dev_script.specs.Pieces.{bytes_in};

use std::alloc::{AllocError, Global};
use std::marker::Model;
use std::sync::Arc;

// From how many bytes on a tail becomes a piece.
const FULL_TAIL: usize = 4096;

/// The bytes that were written to a console, from the first one on: contracts see them as one list. Copies share all but the last few
/// thousand of them.
#[derive(Drop)]
pub struct Console {
    // Bytes that copies share, in pieces of which each has at least twice as many as the next.
    pieces: Vec<Arc<Vec<u8>, Global>>,
    // The last bytes.
    tail: Vec<u8>,
    // How many bytes there are.
    len: usize,
}

impl Model for Console {
    ghost use Rattle.std.specs.Prelude.{◌≡◌, ◌++◌, ℕ, List, length};
    ghost use Rattle.dev_script.specs.Pieces.{bytes_in};

    ghost Value = { List ℕ };

    ghost view = { λ c. bytes_in c.pieces.items ++ c.tail.items };

    ghost invariant = { λ c. c.len ≡ length (bytes_in c.pieces.items ++ c.tail.items) };
}

// How many bytes the pieces from one on and a tail have.
fn size_from(pieces: &[Arc<Vec<u8>, Global>], from: usize, tail: usize) -> usize {
    let mut size = tail;
    for i in from..pieces.len() {
        size = size.saturating_add(pieces[i].len());
    }
    size
}

// The bytes of the pieces from one on, and of a tail, in one list. It asks for the memory that they need, once.
fn joined(
    alloc: Global,
    pieces: &[Arc<Vec<u8>, Global>],
    from: usize,
    tail: &[u8],
) -> Result<Vec<u8>, AllocError>
    ensures { IfOk result (λ bytes. bytes.items ≡ bytes_in (drop from pieces.now) ++ tail.now) }
{
    let mut bytes = Vec::with_capacity(alloc, size_from(pieces, from, tail.len()))?;
    for i in from..pieces.len() {
        bytes.extend_from_slice(&pieces[i])?;
    }
    bytes.extend_from_slice(tail)?;
    Ok(bytes)
}

// From which piece on the pieces are joined with a tail: each of them has fewer than twice as many bytes as all behind it.
fn first_joined(pieces: &[Arc<Vec<u8>, Global>], tail: usize) -> usize
    ensures { result ≤ length pieces.now }
{
    let mut from = pieces.len();
    let mut behind = tail;
    while from > 0 && pieces[from - 1].len() / 2 < behind {
        from -= 1;
        behind = behind.saturating_add(pieces[from].len());
    }
    from
}

// From which piece on a new piece is joined: where the tail is to be a piece of its own, from none.
fn first_of_next(pieces: &[Arc<Vec<u8>, Global>], tail: usize, alone: bool) -> usize
    ensures { result ≤ length pieces.now }
{
    if alone {
        return pieces.len();
    }
    first_joined(pieces, tail)
}

// Other holders of the same pieces.
fn share_all(
    alloc: Global,
    pieces: &[Arc<Vec<u8>, Global>],
) -> Result<Vec<Arc<Vec<u8>, Global>>, AllocError>
    ensures { IfOk result (λ shares. bytes_in shares.items ≡ bytes_in pieces.now) }
{
    let mut shares = Vec::with_capacity(alloc, pieces.len())?;
    for i in 0..pieces.len() {
        shares.push(Arc::try_clone(&pieces[i])?)?;
    }
    Ok(shares)
}

// Some bytes of pieces and a tail from a place on: at least one.
fn run_in<'a>(pieces: &'a [Arc<Vec<u8>, Global>], tail: &'a [u8], at: usize) -> &'a [u8]
    requires { at < length (bytes_in pieces.now ++ tail.now) }
    ensures some { 0 < length result.now }
    ensures run { result.now ≡ take (length result.now) (drop at (bytes_in pieces.now ++ tail.now)) }
{
    let mut inner = at;
    for i in 0..pieces.len() {
        let piece = pieces[i].as_slice();
        if inner < piece.len() {
            return &piece[inner..];
        }
        inner -= piece.len();
    }
    &tail[inner..]
}

// Whether the first bytes of two runs are equal, so many of each.
fn same_start(own: &[u8], others: &[u8], count: usize) -> bool
    requires own { count ≤ length own.now }
    requires others { count ≤ length others.now }
    ensures same { result ≡ true → take count own.now ≡ take count others.now }
    ensures differs { result ≡ false → take count own.now ≡ take count others.now → ⊥ }
{
    own[..count] == others[..count]
}

impl Console {
    /// No bytes.
    pub fn new(alloc: Global) -> Console
        ensures { result ≡ [] }
    {
        Console {
            pieces: Vec::new(alloc),
            tail: Vec::new(alloc),
            len: 0,
        }
    }

    /// How many bytes there are.
    pub fn len(&self) -> usize
        ensures { result ≡ length self.now }
    {
        self.len
    }

    /// All bytes in one list. The one error is want of memory.
    pub fn bytes(&self, alloc: Global) -> Result<Vec<u8>, AllocError>
        ensures { IfOk result (λ bytes. bytes.items ≡ self.now) }
    {
        joined(alloc, &self.pieces, 0, &self.tail)
    }

    /// The same bytes, of which both share all pieces. The one error is want of memory.
    pub fn copy(&self) -> Result<Console, AllocError>
        ensures { IfOk result (λ console. console ≡ self.now) }
    {
        let alloc = *self.tail.allocator();
        let mut tail = Vec::new(alloc);
        tail.extend_from_slice(&self.tail)?;
        Ok(Console {
            pieces: share_all(alloc, &self.pieces)?,
            tail,
            len: self.len,
        })
    }

    /// Whether both have the same bytes. It takes no memory.
    pub fn same(&self, other: &Console) -> bool
        ensures same { result ≡ true → self.now ≡ other.now }
        ensures differs { result ≡ false → self.now ≡ other.now → ⊥ }
    {
        self.len == other.len && self.same_runs(other)
    }

    // Whether both, of which one is as long as the other, have the same bytes: run by run.
    fn same_runs(&self, other: &Console) -> bool
        requires { length self.now ≡ length other.now }
        ensures same { result ≡ true → self.now ≡ other.now }
        ensures differs { result ≡ false → self.now ≡ other.now → ⊥ }
    {
        let mut at = 0;
        while at < self.len() {
            let own = self.run_at(at);
            let others = other.run_at(at);
            let count = own.len().min(others.len());
            if !same_start(own, others, count) {
                return false;
            }
            at += count;
        }
        true
    }

    // Some bytes from a place on: at least one.
    fn run_at(&self, at: usize) -> &[u8]
        requires { at < length self.now }
        ensures some { 0 < length result.now }
        ensures run { result.now ≡ take (length result.now) (drop at self.now) }
    {
        run_in(&self.pieces, &self.tail, at)
    }

    /// Appends bytes. The one error is want of memory: nothing has changed then.
    #[inline(always)]
    pub fn extend_from_slice(&mut self, bytes: &[u8]) -> Result<(), AllocError>
        ensures ok { OnOk result (self.new ≡ self.old ++ bytes.now) }
        ensures err { OnErr result (self.new ≡ self.old) }
    {
        let Some(len) = self.len.checked_add(bytes.len()) else {
            return Err(AllocError);
        };
        self.tail.extend_from_slice(bytes)?;
        self.len = len;
        self.settle();
        Ok(())
    }

    // Makes a tail that is full a piece, where there is memory for it. A tail that stayed would be copied whenever it grows, so where the
    // memory for joining is refused the tail alone becomes a piece: what is asked for then is no more than the tail has.
    fn settle(&mut self)
        ensures { self.new ≡ self.old }
    {
        if self.tail.len() >= FULL_TAIL && self.add_piece(false).is_err() {
            let _kept = self.add_piece(true);
        }
    }

    // Makes the tail a piece: alone, or joined with the pieces before it that have not twice as many bytes. At an error, out of memory,
    // nothing has changed.
    #[inline(never)]
    fn add_piece(&mut self, alone: bool) -> Result<(), AllocError>
        ensures { self.new ≡ self.old }
    {
        let alloc = *self.tail.allocator();
        let from = first_of_next(&self.pieces, self.tail.len(), alone);
        let bytes = joined(alloc, &self.pieces, from, &self.tail)?;
        let piece = Arc::new(alloc, bytes)?;
        self.pieces.insert(from, piece)?;
        self.pieces.truncate(from + 1);
        self.tail.clear();
        Ok(())
    }
}
