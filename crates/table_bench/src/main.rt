// Prints how many times a second `chunk_indices` is answered on tables of growing length.
// Without an argument it prints how to call it, since a measured time is never the same twice.
#![tactic(auto)]

use edges::{OffsetSize, Run, lay};
use grids::chunk_indices;
use std::env;
use std::time::Instant;
use table_grids::{Dimension, Rectilinear};

const EDGE: u64 = 7;

fn chunk_of(grid: &Rectilinear, index: u64) -> u64 {
    let mut place = [0];
    let _ = chunk_indices(grid, &[index], &mut place);
    place[0]
}

// The sum of the chunks found, so that no question can be left out.
fn ask(grid: &Rectilinear, size: u64, questions: u64) -> u64 {
    let mut sum: u64 = 0;
    let mut index: u64 = 0;
    for _ in 0..questions {
        sum = sum.wrapping_add(chunk_of(grid, index));
        index = index.wrapping_add(7919) % size.max(1);
    }
    sum
}

fn measure(rt: &HostRuntime, number: usize, questions: u64) -> anyhow::Result<()> {
    let entries = number as u64;
    let mut table = vec![in rt.alloc(); OffsetSize { offset: 0, size: 0 }; number]?;
    let _ = lay(&[Run::Repeated(EDGE, entries)], &mut table);
    let size = entries.saturating_mul(EDGE);
    let axes = [Dimension::Varying { first: 0, number }];
    let (grid, _) = Rectilinear::new(&[size], &axes, table.as_slice());
    let start = Instant::now(rt)?;
    let sum = ask(&grid, size, questions);
    let nanoseconds = start.elapsed(rt)?.as_nanos().max(1);
    let rate = u128::from(questions).saturating_mul(1_000_000_000) / nanoseconds;
    println!(rt; "{number} entries: {rate} questions a second (sum {sum})")?;
    Ok(())
}

fn questions(rt: &HostRuntime) -> anyhow::Result<Option<u64>> {
    let word = env::args(rt)?.nth(1);
    Ok(word.and_then(|word| word.as_str().parse().ok()))
}

fn main(rt: HostRuntime) -> anyhow::Result<()> {
    let Some(questions) = questions(&rt)? else {
        println!(rt; "usage: table_bench QUESTIONS")?;
        return Ok(());
    };
    for number in [16, 256, 4096, 65536] {
        measure(&rt, number, questions)?;
    }
    Ok(())
}
