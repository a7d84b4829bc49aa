// Verilog text from C and Rust: its sheet, and where its variables are declared.
ghost use Rattle.std.specs.Prelude.{◌≡◌};
ghost use Rattle.verilog_labels.specs.Labels.{labels};
ghost use Rattle.verilog_source.specs.Compiled.{compiled};

// A text's sheet (document 02, request [1]) in 8,192 lent bytes, zeros behind it. `place` takes the byte at which a refusal was met: of
// the text, for the numbers 1 to 11 of the sheet; 0 where there is none. `length` takes the sheet's length, 0 where refused.
#[unsafe(no_mangle)]
pub extern "C" fn walbryts_read_text(
    text: &[u8],
    lent: &mut [u8],
    place: &mut usize,
    length: &mut usize,
) -> u8
    ensures value { result ≡ (compiled text.now lent.old).answer.number }
    ensures lent_after { lent.new ≡ (compiled text.now lent.old).lent }
    ensures place_after { place.new ≡ (compiled text.now lent.old).answer.place }
    ensures length_after { length.new ≡ (compiled text.now lent.old).answer.length }
{
    let found = verilog_read::read_text(text, lent);
    *place = found.place;
    *length = found.length;
    found.number
}

// For each number of a variable the place in the text of the name that declares it, and the name's length; both 0 behind the last.
#[unsafe(no_mangle)]
pub extern "C" fn walbryts_names(text: &[u8], places: &mut [u16; 80], lengths: &mut [u16; 80]) -> u8
    ensures value { result ≡ (labels text.now places.old lengths.old).number }
    ensures places_after { places.new ≡ (labels text.now places.old lengths.old).places }
    ensures lengths_after { lengths.new ≡ (labels text.now places.old lengths.old).lengths }
{
    verilog_labels::names(text, places, lengths)
}
