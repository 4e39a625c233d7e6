ghost use Rattle.std.specs.Prelude.{◌≡◌, ◌≢◌, ℕ, ◌+◌, ◌<◌, length, slice_index};
ghost use Rattle.call_model.specs.Block.{word_at, words, block_bytes, Spells};

use call_model::Block;

// Word `k`, below 34, of a register block's bytes.
#[tactic(auto, unfolding(call_model::specs::Block::word_at))]
fn word(bytes: &[u8; 136], k: usize) -> u32
    requires { k < 34 }
    ensures { result ≡ word_at bytes.now k }
{
    let at = 4 * k;
    let low = u32::from(bytes[at]) + 256 * u32::from(bytes[at + 1]);
    let high = u32::from(bytes[at + 2]) + 256 * u32::from(bytes[at + 3]);
    low + 65_536 * high
}

// Writes word `k`, below 34, of a register block's bytes.
#[tactic(auto, unfolding(call_model::specs::Block::word_at))]
fn set_word(bytes: &mut [u8; 136], k: usize, value: u32)
    requires { k < 34 }
    ensures word { word_at bytes.new k ≡ value }
    ensures others { (j : ℕ) → j ≢ k → word_at bytes.new j ≡ word_at bytes.old j }
{
    let at = 4 * k;
    bytes[at] = (value % 256) as u8;
    bytes[at + 1] = (value / 256 % 256) as u8;
    bytes[at + 2] = (value / 65_536 % 256) as u8;
    bytes[at + 3] = (value / 16_777_216) as u8;
}

// x1 to x31 of a register block's bytes.
fn read_registers(bytes: &[u8; 136]) -> [u32; 31]
    ensures { (k : ℕ) → k < 31 → slice_index result k ≡ word_at bytes.now (k + 1) }
{
    let mut x = [0; 31];
    for k in 0..31 {
        x[k] = word(bytes, k + 1);
    }
    x
}

// Writes x1 to x31 into a register block's bytes.
fn set_registers(bytes: &mut [u8; 136], x: &[u32; 31])
    ensures registers { (k : ℕ) → k < 31 → word_at bytes.new (k + 1) ≡ slice_index x.now k }
    ensures others { word_at bytes.new 0 ≡ word_at bytes.old 0 }
{
    for k in 0..31 {
        set_word(bytes, k + 1, x[k]);
    }
}

/// The register block that bytes spell: 34 little-endian words, pc, x1 to x31, the number of the cause and the value.
pub fn read_block(bytes: &[u8; 136]) -> Block
    ensures { Spells bytes.now result }
{
    Block {
        pc: word(bytes, 0),
        x: read_registers(bytes),
        cause: word(bytes, 32),
        value: word(bytes, 33),
    }
}

// Bytes that spell a register block.
fn spelling(block: &Block) -> [u8; 136]
    ensures spells { Spells result block.now }
    ensures registers { length block.now.x ≡ 31 }
{
    let mut bytes = [0; 136];
    set_word(&mut bytes, 0, block.pc);
    set_registers(&mut bytes, &block.x);
    set_word(&mut bytes, 32, block.cause);
    set_word(&mut bytes, 33, block.value);
    bytes
}

/// The bytes that spell a register block: 34 little-endian words, pc, x1 to x31, the number of the cause and the value.
pub fn write_block(block: &Block) -> [u8; 136]
    ensures spells { Spells result block.now }
    ensures bytes { result ≡ block_bytes block.now }
{
    spelling(block)
}

/// Reads what it writes: the same block comes out.
pub fn reread_block(block: Block) -> Block
    ensures { result ≡ block }
{
    read_block(&write_block(&block))
}

/// Writes what it reads: the same bytes come out.
pub fn rewrite_block(bytes: &[u8; 136]) -> [u8; 136]
    ensures { result ≡ bytes.now }
{
    write_block(&read_block(bytes))
}
