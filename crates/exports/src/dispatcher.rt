// The dispatcher from C and Rust: its records pass as two slices, the flags and the turns.
ghost use Rattle.std.specs.Prelude.{◌≡◌};
ghost use Rattle.dispatch.specs.Dispatch.{number_of, picked_of};
ghost use Rattle.dispatch.specs.Planes.{dispatched_planes, turns_after};

// One call of the dispatcher, on the flags and the turns of up to eight modules and the number served by the call before. `picked`
// takes the number picked, 255 where none is.
#[unsafe(no_mangle)]
pub extern "C" fn walbryts_dispatch(
    busy: &[bool],
    turns: &mut [u32],
    last: u8,
    picked: &mut u8,
) -> u8
    ensures value { result ≡ number_of (dispatched_planes busy.now turns.old last) }
    ensures turns_after { turns.new
        ≡ turns_after turns.old (dispatched_planes busy.now turns.old last) }
    ensures picked_after { picked.new ≡ picked_of (dispatched_planes busy.now turns.old last) }
{
    let answer = dispatch::slices::dispatch_planes(busy, turns, last);
    *picked = dispatch::picked_of(answer);
    dispatch::number_of(answer)
}
