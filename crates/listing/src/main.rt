// Document 01, "Listing program": reads table.bin, bias.bin and records from standard input, and prints one line for each record.

#![tactic(auto)]

use programs::Program;

fn main(rt: HostRuntime) {
    programs::run(&rt, Program::Listing);
}
