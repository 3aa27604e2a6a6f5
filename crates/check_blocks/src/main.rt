// The cells of one FAC block, one SDC block and one multiplex frame for many settings, a line each with their digests, in the order of second/README.md,
// "blocks". Each block is read back; one that did not come back would have the digest 0.
#![tactic(auto)]

mod blocks;
mod lines;
mod numbered;

fn main() {
    let line = lines::levels_and_x();
    lines::powers_of_two(line);
}
