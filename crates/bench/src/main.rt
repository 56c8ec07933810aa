// The bench: reads a script on standard input, and writes a record line for each event on standard output.
// What a line means, what a stick answers and how that is written are the libraries'; here they are joined.
#![tactic(auto)]

use console::fits::{chosen_fit, inspected_memory};
use console::script::serve_script;
use console::telling::told;
use medium::Fitted;
use medium::straight::Straight;
use medium::turning::Turning;
use options::choice::{Fit, Make};
use options::read::USAGE;
use std::env;
use std::process::ExitCode;
use stick::stick::power::start;

// Fits the stick with a medium of this make, powers it up and runs the script.
fn run<M: Fitted + Drop>(rt: &HostRuntime, fit: Fit, memory: Vec<u8>) -> anyhow::Result<bool> {
    let Fit { layout, runs, .. } = fit;
    let stick = start(M::fit(memory, runs), layout.as_slice());
    serve_script(rt, rt.stdin(), stick)
}

// The stick that the command line says, powered up, and the script on it: whether that got to the script's end.
fn run_bench(rt: &HostRuntime) -> anyhow::Result<bool> {
    let Some(words) = told(rt, USAGE, env::args(rt))? else {
        return Ok(false);
    };
    let words: Vec<String> = words.skip(1).collect(rt.alloc())?;
    let Some(fit) = chosen_fit(rt, USAGE, words.as_slice())? else {
        return Ok(false);
    };
    let Some(memory) = inspected_memory(rt, "", &fit)? else {
        return Ok(false);
    };
    match fit.make {
        Make::Straight => run::<Straight>(rt, fit, memory),
        Make::Turning => run::<Turning>(rt, fit, memory),
    }
}

// What is turned down, and what goes wrong over a line, is told where it is found; other want of memory, or a stream that fails, as the program
// ends.
fn main(rt: HostRuntime) -> anyhow::Result<ExitCode> {
    if run_bench(&rt)? {
        Ok(ExitCode::SUCCESS)
    } else {
        Ok(ExitCode::FAILURE)
    }
}
