// Constants as a sheet has them.
ghost use Rattle.std.specs.Prelude.{◌≡◌};
ghost use Rattle.writing.specs.Buffer.{filled, puts};
ghost use Rattle.encoding.specs.Encoding.{encode_word};
ghost use Rattle.verilog_grammar.specs.Meaning.{up_to, cut};
ghost use Rattle.verilog_exprs.specs.Constants.{constant_bytes};

use verilog_bytes::put_pair;

// A width's byte: 255 above 32.
pub fn width_of(n: u32) -> u8
    ensures { result ≡ up_to 32 n }
{
    if n <= 32 { n as u8 } else { 255 }
}

// A value cut to a width.
fn cut(width: u8, v: u32) -> u32
    ensures { result ≡ cut width v }
{
    if 32 <= width { v } else { v % (1u32 << width) }
}

// Four bytes, low first.
fn put_word(v: u32, out: &mut [u8; 65536], pos: usize) -> usize
    ensures { filled out.new result ≡ puts (filled out.old pos) (encode_word v) }
{
    let [a, b, c, d] = v.to_le_bytes();
    let p = put_pair(a, b, out, pos);
    put_pair(c, d, out, p)
}

// A known constant.
pub fn put_constant(width: u8, v: u32, out: &mut [u8; 65536], pos: usize) -> usize
    ensures { filled out.new result ≡ puts (filled out.old pos) (constant_bytes width v) }
{
    let p = put_pair(0x0C, width, out, pos);
    put_word(cut(width, v), out, p)
}
