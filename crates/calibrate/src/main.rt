// Reads table.bin, bias.bin and records from standard input, and writes the product of each accepted record to standard output. The
// refusals go to standard error.

#![tactic(auto)]

use programs::Program;

fn main(rt: HostRuntime) {
    programs::run(&rt, Program::Calibrate);
}
