ghost use Rattle.std.specs.Prelude.{◌≡◌, [], ◌∷◌, ◌++◌, All, map, OnOk, IfOk};
ghost use Rattle.bench_model.specs.Generated as model;
ghost use Rattle.image_file.specs.View.{segment_view, segment_views};
ghost use Rattle.instruction_model.specs.Encoding.{word_of};
ghost use Rattle.instruction_model.specs.Form.{HasFields};

use crate::draft::put_instruction;
use crate::program::{
    DATA, MOST_THREADS, begins, ends, forks, joins, reads, stores, turns_of_a_thread,
};
use image_file::{Image, Segment};
use instruction_model::Instruction;
use memory_model::GREATEST_PERMISSION;
use std::alloc::{AllocError, Global};

/// What a number is multiplied by to get the next one (a linear congruential generator of Numerical Recipes).
const MULTIPLIER: u32 = 1_664_525;

/// What is then added.
const INCREMENT: u32 = 1_013_904_223;

/// The most turns of a thread.
const MOST_TURNS: u32 = 4096;

/// Where the code begins.
const CODE: u32 = 0x1000;

/// The permission of the code: to read and to execute.
const READ_AND_EXECUTE: u8 = 5;

/// The permission of the data: everything is allowed, as for all that a file of DTI1 lets read and write.
const EVERYTHING: u8 = GREATEST_PERMISSION;

/// Where the turns of the threads begin in the data, in words.
const TURNS: usize = MOST_THREADS as usize;

/// Where their starts begin, in words.
const STARTS: usize = 2 * TURNS;

/// How many words the data have.
const WORDS: usize = 4 * TURNS;

// The number after a number.
fn next(number: u32) -> u32
    ensures { result ≡ model.next number }
{
    MULTIPLIER.wrapping_mul(number).wrapping_add(INCREMENT)
}

// Turns that come from the upper half of a number, from 1 to 4,096.
fn turns_from(number: u32) -> u32
    ensures { result ≡ model.turns_from number }
{
    1 + number / 65_536 % MOST_TURNS
}

// A start that comes from a number: it is not 0, which the step of a thread would keep.
fn start_from(number: u32) -> u32
    ensures { result ≡ model.start_from number }
{
    number | 1
}

// How many threads there are; behind them the turns of each, the start of each, and room for what each stores.
fn data_words(seed: u32) -> [u32; WORDS]
    ensures { result ≡ model.data_words seed }
{
    let threads = 1 + seed % MOST_THREADS;
    let mut words = [0; WORDS];
    words[0] = threads;
    let mut number = seed;
    for thread in 0..threads as usize {
        number = next(number);
        words[TURNS + thread] = turns_from(number);
        number = next(number);
        words[STARTS + thread] = start_from(number);
    }
    words
}

fn put_words(content: &mut Vec<u8>, words: &[u32]) -> Result<(), AllocError>
    ensures { OnOk result (content.new.items ≡ content.old.items ++ model.words_bytes words.now) }
{
    for word in words {
        content.extend_from_slice(&word.to_le_bytes())?;
    }
    Ok(())
}

fn put_instructions(content: &mut Vec<u8>, instructions: &[Instruction]) -> Result<(), AllocError>
    requires { All HasFields instructions.now }
    ensures { OnOk result (content.new.items ≡ content.old.items ++ model.words_bytes (map word_of instructions.now)) }
{
    for instruction in instructions {
        put_instruction(content, *instruction)?;
    }
    Ok(())
}

fn code_segment(alloc: Global) -> Result<Segment, AllocError>
    ensures { IfOk result (λ s. segment_view s ≡ model.code_segment) }
{
    let mut bytes = Vec::new(alloc);
    put_instructions(&mut bytes, &begins())?;
    put_instructions(&mut bytes, &forks())?;
    put_instructions(&mut bytes, &joins())?;
    put_instructions(&mut bytes, &ends())?;
    put_instructions(&mut bytes, &reads())?;
    put_instructions(&mut bytes, &turns_of_a_thread())?;
    put_instructions(&mut bytes, &stores())?;
    Ok(Segment {
        addr: CODE,
        perm: READ_AND_EXECUTE,
        bytes,
        zeros: 0,
    })
}

fn data_segment(alloc: Global, seed: u32) -> Result<Segment, AllocError>
    ensures { IfOk result (λ s. segment_view s ≡ model.data_segment seed) }
{
    let mut bytes = Vec::new(alloc);
    put_words(&mut bytes, &data_words(seed))?;
    Ok(Segment {
        addr: DATA,
        perm: EVERYTHING,
        bytes,
        zeros: 0,
    })
}

fn both_segments(alloc: Global, seed: u32) -> Result<Vec<Segment>, AllocError>
    ensures { IfOk result (λ v. segment_views v.items ≡ model.code_segment ∷ model.data_segment seed ∷ []) }
{
    let mut segments = Vec::new(alloc);
    segments.push(code_segment(alloc)?)?;
    segments.push(data_segment(alloc, seed)?)?;
    Ok(segments)
}

/// The image that is made from a number: a program of 1 + `seed` mod 16 threads, each of which computes numbers of its own
/// (G. Marsaglia, "Xorshift RNGs", 2003) and stores the last one. It begins at 0x1000 with its stack pointer 0. There are 152
/// bytes of code at 0x1000, with permission 5, and 256 bytes of data at 0x10000, with permission 7: the number of threads, and
/// for each how many numbers it computes, at most 4,096, and from which one on; these come from the seed (the linear
/// congruential generator of Numerical Recipes). The one error is want of memory.
#[tactic(auto, using(bench_model::proofs::Generated::are_segments), unfolding(bench_model::specs::Generated::generated))]
pub fn generated(alloc: Global, seed: u32) -> Result<Image, AllocError>
    ensures { IfOk result (λ i. i ≡ model.generated seed) }
{
    let segments = both_segments(alloc, seed)?;
    Ok(Image::new(CODE, 0, segments))
}
