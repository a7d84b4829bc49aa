// A state into its saved form, which is put at the front of a lent buffer.
ghost use Rattle.std.specs.Prelude.{◌≡◌, ◌≤◌};
ghost use Rattle.std.proofs.lemmas.List.Edits.{sets};
ghost use Rattle.saved.specs.Saved.{word_bytes, long_bytes, value_bytes, slot_bytes, place_bytes, due_bytes};
ghost use Rattle.saved.specs.Saved.{count_bytes, allowance_bytes, saved};

use state::State;

// A number, low byte first.
fn put_word(n: u32, out: &mut [u8; 1025], at: usize)
    requires { at ≤ 1021 }
    ensures { out.new ≡ sets out.old at (word_bytes n) }
{
    out[at..at + 4].copy_from_slice(&n.to_le_bytes());
}

// A number of 64 bits, low half first.
fn put_long(n: u64, out: &mut [u8; 1025], at: usize)
    requires { at ≤ 1017 }
    ensures { out.new ≡ sets out.old at (long_bytes n) }
{
    put_word((n % 4294967296) as u32, out, at);
    put_word((n / 4294967296) as u32, out, at + 4);
}

// The values.
fn put_values<'a>(value: &'a [u32; 80], unknown: &'a [u32; 80], out: &mut [u8; 1025])
    ensures { out.new ≡ sets out.old 1 (value_bytes value.now unknown.now) }
{
    for v in 0..80 {
        let at = 1 + 8 * v;
        put_word(value[v], out, at);
        put_word(unknown[v], out, at + 4);
    }
}

// The pending slots.
fn put_slots<'a>(
    held: &'a [bool; 32],
    pending: &'a [u32; 32],
    unsure: &'a [u32; 32],
    out: &mut [u8; 1025],
)
    ensures { out.new ≡ sets out.old 641
        (slot_bytes held.now pending.now unsure.now) }
{
    for r in 0..32 {
        let at = 641 + 9 * r;
        out[at] = held[r] as u8;
        put_word(pending[r], out, at + 1);
        put_word(unsure[r], out, at + 5);
    }
}

// The places.
fn put_places(places: &[u8; 8], out: &mut [u8; 1025])
    ensures { out.new ≡ sets out.old 929 (place_bytes places.now) }
{
    for i in 0..8 {
        out[929 + i] = places[i];
    }
}

// The marks of the wires that are due.
fn put_due(due: &[bool; 32], out: &mut [u8; 1025])
    ensures { out.new ≡ sets out.old 937 (due_bytes due.now) }
{
    for k in 0..32 {
        out[937 + k] = due[k] as u8;
    }
}

// The users' counts.
fn put_counts(counts: &[u64; 4], out: &mut [u8; 1025])
    ensures { out.new ≡ sets out.old 977 (count_bytes counts.now) }
{
    for u in 0..4 {
        put_long(counts[u], out, 977 + 8 * u);
    }
}

// The users' allowances.
fn put_allowances(allowances: &[u32; 4], out: &mut [u8; 1025])
    ensures { out.new ≡ sets out.old 1009 (allowance_bytes allowances.now) }
{
    for u in 0..4 {
        put_word(allowances[u], out, 1009 + 4 * u);
    }
}

// The saved form of a state is put into the buffer, which it fills.
pub fn save(st: State, out: &mut [u8; 1025])
    ensures { out.new ≡ saved st }
{
    let counters = st.counters;
    let mut bytes = [0u8; 1025];
    bytes[0] = 4;
    put_values(&st.value, &st.unknown, &mut bytes);
    put_slots(&st.held, &st.pending, &st.unsure, &mut bytes);
    put_places(&st.places, &mut bytes);
    put_due(&st.due, &mut bytes);
    put_long(counters.time, &mut bytes, 969);
    put_counts(&counters.counts, &mut bytes);
    put_allowances(&counters.allowances, &mut bytes);
    *out = bytes;
}
