// A state out of its saved form.
ghost use Rattle.std.specs.Prelude.{◌≡◌};
ghost use Rattle.saved.specs.Saved.{is_saved, state_in, zero_state, loaded, loaded_answer};

use super::Loaded;
use super::fields::{counters_at, flags, flags_at, is_form, places_at, words_at};
use state::{Counters, State};

// Are these bytes the saved form of a state?
// stays test by test: as one expression its proof didn't close
pub(crate) fn is_saved(bytes: &[u8]) -> bool
    ensures { result ≡ is_saved bytes.now }
{
    if !is_form(4, 1025, bytes) {
        return false;
    }
    if !flags(bytes, 641, 9, 32) {
        return false;
    }
    flags(bytes, 937, 1, 32)
}

// The state in bytes of this form.
pub(crate) fn state_in(bytes: &[u8]) -> State
    ensures { result ≡ state_in bytes.now }
{
    let value = words_at::<80>(bytes, 1, 8);
    let unknown = words_at::<80>(bytes, 5, 8);
    let pending = words_at::<32>(bytes, 642, 9);
    let unsure = words_at::<32>(bytes, 646, 9);
    let held = flags_at(bytes, 641, 9);
    let places = places_at(bytes, 929);
    let due = flags_at(bytes, 937, 1);
    let counters = counters_at(bytes, 969);
    State {
        value,
        unknown,
        pending,
        unsure,
        held,
        places,
        due,
        counters,
    }
}

// Every number 0 and every flag down.
pub(crate) fn zero_state() -> State
    ensures { result ≡ zero_state }
{
    State {
        value: [0u32; 80],
        unknown: [0u32; 80],
        pending: [0u32; 32],
        unsure: [0u32; 32],
        held: [false; 32],
        places: [0u8; 8],
        due: [false; 32],
        counters: Counters {
            time: 0,
            counts: [0u64; 4],
            allowances: [0u32; 4],
        },
    }
}

// The state that the bytes are the saved form of.
pub fn load(bytes: &[u8]) -> Loaded
    ensures { result ≡ loaded_answer (loaded bytes.now) }
{
    if is_saved(bytes) {
        let state = state_in(bytes);
        return Loaded { found: true, state };
    }
    let state = zero_state();
    Loaded {
        found: false,
        state,
    }
}
