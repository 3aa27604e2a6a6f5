// A frame's bits from the logical frames, and the logical frames from a frame's bits.
ghost use Rattle.std.specs.Prelude.{◌≡◌, ◌++◌, ◌+◌, ◌-◌, length};
ghost use Rattle.block.specs.Packing.{unpacked, packed};
ghost use Rattle.frameparts.specs.Streams.{shares_in};
ghost use Rattle.multiplex.specs.Frame.{split_by, split_in, built, handed};
ghost use Rattle.multiplex.specs.Clauses.{Bounds, PutsBits, ReadsBits, TakesBits, Fitting, Buffers, zero_after};

use crate::Layout;
use block::buffers::{bit_buffer, byte_buffer};
use frameparts::bits::{all_zero, unpack};
use frameparts::parts::{lay_parts, take_parts};
use packing::bits::pack;

// The VSPP with the hierarchical frame, the remainder with all parts, and zeros to the end of each.
fn lay_bits(head: &[u8], vspp: usize, parts: &[u8], bits: &mut [u8])
    requires { Bounds vspp parts.now bits.old }
    ensures { bits.new ≡ unpacked vspp head.now ++ unpacked (length bits.old - vspp) parts.now }
{
    unpack(head, &mut bits[0..vspp]);
    unpack(parts, &mut bits[vspp..]);
}

// The same packed.
fn put_bits(l: Layout, head: &[u8], parts: &[u8], frame: &mut [u8])
    requires { PutsBits l parts.now frame.old }
    ensures { frame.new ≡ packed (unpacked l.vspp head.now ++ unpacked l.rest parts.now) }
{
    let mut bits = bit_buffer();
    let ends = l.vspp + l.rest;
    lay_bits(head, l.vspp, parts, &mut bits[0..ends]);
    pack(&bits[0..ends], frame);
}

// A frame from its logical frames.
pub fn put_frame(l: Layout, numbers: &[u16], streams: &[u8], frame: &mut [u8])
    requires { Buffers l numbers.now streams.now frame.old }
    ensures { frame.new ≡ built l (shares_in numbers.now) streams.now }
{
    let mut parts = byte_buffer();
    let head = l.head;
    let n = l.a + l.b;
    lay_parts(numbers, &streams[head..], &mut parts[0..n]);
    put_bits(l, &streams[0..head], &parts[0..n], frame);
}

// Whether the fillings of the VSPP and of the remainder are zero.
fn zero_after(l: Layout, bits: &[u8]) -> bool
    requires { ReadsBits l bits.now }
    ensures { result ≡ zero_after l bits.now }
{
    let head = 8 * l.head;
    let begins = l.vspp;
    let filling = l.vspp + 8 * (l.a + l.b);
    let first = all_zero(&bits[head..begins]);
    let second = all_zero(&bits[filling..]);
    first & second
}

// The same of a packed frame.
pub fn filling_zero(l: Layout, frame: &[u8]) -> bool
    requires { Fitting l }
    ensures { result ≡ zero_after l (unpacked (l.vspp + l.rest) frame.now) }
{
    let mut bits = bit_buffer();
    let ends = l.vspp + l.rest;
    unpack(frame, &mut bits[0..ends]);
    zero_after(l, &bits[0..ends])
}

// The logical frames of a frame's bits.
fn take_bits(l: Layout, numbers: &[u16], bits: &[u8], streams: &mut [u8])
    requires { TakesBits l numbers.now bits.now streams.old }
    ensures { streams.new ≡ handed (split_by l (shares_in numbers.now) bits.now) }
{
    let mut parts = byte_buffer();
    let head = l.head;
    let begins = l.vspp;
    let n = l.a + l.b;
    pack(&bits[begins..begins + 8 * n], &mut parts[0..n]);
    pack(&bits[0..8 * head], &mut streams[0..head]);
    take_parts(numbers, &parts[0..n], &mut streams[head..]);
}

// The logical frames of a packed frame.
pub fn take_frame(l: Layout, numbers: &[u16], frame: &[u8], streams: &mut [u8])
    requires { Buffers l numbers.now streams.old frame.now }
    ensures { streams.new ≡ handed (split_in l (shares_in numbers.now) frame.now) }
{
    let mut bits = bit_buffer();
    let ends = l.vspp + l.rest;
    unpack(frame, &mut bits[0..ends]);
    take_bits(l, numbers, &bits[0..ends], streams);
}
