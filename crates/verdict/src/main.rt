// The verdict program: reads a design file on standard input and prints the verdict, reason, place and component.
#![tactic(auto)]

mod program; // program.rt: the program over any reader and writer

fn main(rt: HostRuntime) {
    // The line is all that the program tells. What was read before a read failed has been judged, and a design that is cut short is refused;
    // who cannot be written to has no verdict.
    let _ = program::answer(rt.stdin(), &mut rt.stdout());
}
