// twins: two sticks side by side, each fitted and set up by itself, then both through one common script.
// It prints both records of the common script, and the first line at which they differ.
#![tactic(auto)]

use console::fits::{chosen_fit, inspected_memory};
use console::serving::serve_lines;
use console::telling::told;
use lines::line::read_line;
use medium::straight::Straight;
use medium::turning::Turning;
use medium::{Fitted, Medium};
use options::choice::{Fit, Make};
use record::buffer::handed;
use record::turn::turn_line;
use std::alloc::Global;
use std::io::Write;
use std::process::ExitCode;
use std::{env, fs};
use trial::side_by_side::side_by_side;
use trial::turn::Turn;

const USAGE: &str = "usage: twins FIRST SECOND COMMON [OPTIONS] [-- OPTIONS]
FIRST and SECOND set the two sticks up, COMMON is for both; the options are the bench's, for both sticks, or before -- for the first and behind it for the second";

// A script as turns that are still to be taken, and the line that each stands on.
// The two lists stay apart, since a run takes a list of turns alone, in place.
#[derive(Drop)]
struct Script {
    turns: Vec<Turn>,
    lines: Vec<u64>,
}

impl Script {
    // No line yet.
    fn new(heap: Global) -> Script {
        Script {
            turns: Vec::new(heap),
            lines: Vec::new(heap),
        }
    }
}

// All that one of the two sticks is given.
#[derive(Drop)]
struct Side<M> {
    medium: M,
    layout: Vec<u8>,
    setup: Script,
    common: Script,
}

// A stick that passed inspection, on memory of zeros, with its scripts.
#[derive(Drop)]
struct Inspected {
    fit: Fit,
    memory: Vec<u8>,
    setup: Script,
    common: Script,
}

impl Inspected {
    fn new(fit: Fit, memory: Vec<u8>, setup: Script, common: Script) -> Inspected {
        Inspected {
            fit,
            memory,
            setup,
            common,
        }
    }

    // The side with a medium of this make.
    fn fitted<M: Fitted>(self) -> Side<M> {
        let Inspected {
            fit: Fit { layout, runs, .. },
            memory,
            setup,
            common,
        } = self;
        Side {
            medium: M::fit(memory, runs),
            layout,
            setup,
            common,
        }
    }
}

fn with_line(heap: Global, mut script: Script, line: &[u8], number: u64) -> anyhow::Result<Script> {
    if let Some(event) = read_line(heap, line)? {
        let event = handed(heap, event)?;
        script.turns.push(Turn::new(event))?;
        script.lines.push(number)?;
    }
    Ok(script)
}

// A line of the common script goes to both sticks as it is read, so that they run the same even if the lines come from a pipe.
fn with_common_line(
    heap: Global,
    scripts: (Script, Script),
    line: &[u8],
    number: u64,
) -> anyhow::Result<(Script, Script)> {
    let (first, second) = scripts;
    let first = with_line(heap, first, line, number)?;
    let second = with_line(heap, second, line, number)?;
    Ok((first, second))
}

// What the lines of a file make, or none: what is wrong with it is told on standard error then, and nothing more of it is read.
fn read_lines<S: Drop, F: Fn(S, u64, &[u8]) -> anyhow::Result<S>>(
    rt: &HostRuntime,
    path: &str,
    empty: S,
    serve: F,
) -> anyhow::Result<Option<S>>
    requires { F.IsAlwaysCallable serve }
{
    match fs::open(rt, path) {
        Ok(file) => {
            let place = format!(in rt.alloc(); "{path}, ")?;
            serve_lines(rt, file, place.as_str(), empty, serve)
        }
        Err(error) => {
            eprintln!(rt; "{path}: {error}")?;
            Ok(None)
        }
    }
}

// The script in a file, or none.
fn read_script(rt: &HostRuntime, path: &str) -> anyhow::Result<Option<Script>> {
    let heap = rt.alloc();
    read_lines(rt, path, Script::new(heap), |script, number, line| {
        with_line(heap, script, line, number)
    })
}

// The common script in a file, for each of the two sticks, or none.
fn read_common(rt: &HostRuntime, path: &str) -> anyhow::Result<Option<(Script, Script)>> {
    let heap = rt.alloc();
    let empty = (Script::new(heap), Script::new(heap));
    read_lines(rt, path, empty, |scripts, number, line| {
        with_common_line(heap, scripts, line, number)
    })
}

// Both sticks with their scripts, or none. Of several things that are wrong the first in this order is told: the first stick, its script, the
// second's script, the common one, the second stick.
fn prepared(
    rt: &HostRuntime,
    fits: (Fit, Fit),
    paths: [&str; 3],
) -> anyhow::Result<Option<(Inspected, Inspected)>> {
    let (first, second) = fits;
    let [first_path, second_path, common_path] = paths;
    let Some(first_memory) = inspected_memory(rt, "first stick: ", &first)? else {
        return Ok(None);
    };
    let Some(first_setup) = read_script(rt, first_path)? else {
        return Ok(None);
    };
    let Some(second_setup) = read_script(rt, second_path)? else {
        return Ok(None);
    };
    let Some((first_common, second_common)) = read_common(rt, common_path)? else {
        return Ok(None);
    };
    let Some(second_memory) = inspected_memory(rt, "second stick: ", &second)? else {
        return Ok(None);
    };
    Ok(Some((
        Inspected::new(first, first_memory, first_setup, first_common),
        Inspected::new(second, second_memory, second_setup, second_common),
    )))
}

// Prints the record of a stick, each line behind the stick's number.
fn print_record(rt: &HostRuntime, stick: u8, turns: &[Turn]) -> anyhow::Result<()> {
    let heap = rt.alloc();
    for turn in turns {
        let mut line = format!(in heap; "{stick} ")?.into_bytes();
        let record = turn_line(heap, turn)?;
        line.extend_from_slice(record.as_slice())?;
        line.push(b'\n')?;
        rt.stdout().write_all(line.as_slice())?;
    }
    Ok(())
}

// Whether two sticks agreed on an event: number, CSW, all that is answered, and the buffer afterwards.
fn is_agreed(first: &Turn, second: &Turn) -> bool {
    first.reply == second.reply && first.event.buffer() == second.event.buffer()
}

// Says at which line the replies, or the buffers afterwards, differ first.
fn compare(rt: &HostRuntime, first: &Script, second: &Script) -> anyhow::Result<()> {
    for ((one, other), number) in first
        .turns
        .iter()
        .zip(second.turns.iter())
        .zip(first.lines.iter())
    {
        if !is_agreed(one, other) {
            println!(rt; "line {number} differs")?;
            return Ok(());
        }
    }
    println!(rt; "no line differs")?;
    Ok(())
}

// Both sticks on their mediums, each through its own script, then through the common one.
fn run<M: Medium + Drop, N: Medium + Drop>(
    rt: &HostRuntime,
    first: Side<M>,
    second: Side<N>,
) -> anyhow::Result<()> {
    let Side {
        medium: first_medium,
        layout: first_layout,
        setup: mut first_setup,
        common: mut first_common,
    } = first;
    let Side {
        medium: second_medium,
        layout: second_layout,
        setup: mut second_setup,
        common: mut second_common,
    } = second;
    let (_, _) = side_by_side(
        first_medium,
        first_layout.as_slice(),
        &mut first_setup.turns,
        &mut first_common.turns,
        second_medium,
        second_layout.as_slice(),
        &mut second_setup.turns,
        &mut second_common.turns,
    );
    print_record(rt, 1, first_common.turns.as_slice())?;
    print_record(rt, 2, second_common.turns.as_slice())?;
    compare(rt, &first_common, &second_common)
}

// The second stick is fitted, and both run.
fn run_second<M: Medium + Drop>(
    rt: &HostRuntime,
    first: Side<M>,
    second: Inspected,
) -> anyhow::Result<()> {
    match second.fit.make {
        Make::Straight => run(rt, first, second.fitted::<Straight>()),
        Make::Turning => run(rt, first, second.fitted::<Turning>()),
    }
}

// The two sticks by their options, or none: behind a divider stand the second's, and without one both have the same.
fn chosen_fits(rt: &HostRuntime, words: &[String]) -> anyhow::Result<Option<(Fit, Fit)>> {
    let divider = words.iter().position(|word| word.as_str() == "--");
    let (first, second) = match divider {
        Some(at) => (&words[..at], &words[at + 1..]),
        None => (words, words),
    };
    let Some(first) = chosen_fit(rt, USAGE, first)? else {
        return Ok(None);
    };
    let second = chosen_fit(rt, USAGE, second)?;
    Ok(second.map(|second| (first, second)))
}

// The sticks and scripts that the command line says, side by side: whether they could be run.
fn run_twins(rt: &HostRuntime) -> anyhow::Result<bool> {
    let Some(words) = told(rt, USAGE, env::args(rt))? else {
        return Ok(false);
    };
    let words: Vec<String> = words.skip(1).collect(rt.alloc())?;
    let [first_path, second_path, common_path, rest @ ..] = words.as_slice() else {
        eprintln!(rt; "{USAGE}")?;
        return Ok(false);
    };
    let Some(fits) = chosen_fits(rt, rest)? else {
        return Ok(false);
    };
    let paths = [
        first_path.as_str(),
        second_path.as_str(),
        common_path.as_str(),
    ];
    let Some((first, second)) = prepared(rt, fits, paths)? else {
        return Ok(false);
    };
    match first.fit.make {
        Make::Straight => run_second(rt, first.fitted::<Straight>(), second)?,
        Make::Turning => run_second(rt, first.fitted::<Turning>(), second)?,
    }
    Ok(true)
}

// What is turned down, and what goes wrong over a line, is told where it is found; other want of memory, or a stream that fails, as the program
// ends.
fn main(rt: HostRuntime) -> anyhow::Result<ExitCode> {
    if run_twins(&rt)? {
        Ok(ExitCode::SUCCESS)
    } else {
        Ok(ExitCode::FAILURE)
    }
}
