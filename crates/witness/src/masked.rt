// Tests on the masks of the registers that threads write and of the threads and wires that read a variable: rules 12, 13, 14 and 19.
ghost use Rattle.std.specs.Prelude.{◌≡◌, ◌<◌, ◌≤◌};
ghost use Rattle.witness.specs.Witness.{lowest};
ghost use Rattle.witness.specs.Seeking.{by_marks, double_written_at, written_both_ways_at, shared_register_at, upward_wire_at};

use crate::{MarkTest, Witness, a_register, a_wire, wide};
use sheet::Layout;

// Does the test hold of k?
fn by_marks(
    layout: Layout,
    readers: &[u32; 80],
    plain: &[u32; 8],
    later: &[u32; 8],
    reading: &[u32; 80],
    test: MarkTest,
    k: usize,
) -> bool
    requires { k < 256 }
    ensures { result ≡ by_marks layout readers.now plain.now later.now reading.now test k }
{
    let threads = wide(layout.threads);
    let inputs = wide(layout.inputs);
    let registers = wide(layout.registers);
    match test {
        MarkTest::Twice => rules::written_twice(plain, later, threads, k),
        MarkTest::Writes(r) => rules::writes(plain, later, k, r),
        MarkTest::OtherWrites { thread, register } => rules::other_writes(
            plain, later, thread, register, k,
        ),
        MarkTest::Both => rules::written_both(plain, later, threads, k),
        MarkTest::Plain(r) => rules::marked(plain, k, r),
        MarkTest::Later(r) => rules::marked(later, k, r),
        MarkTest::Shared => rules::shared(plain, reading, readers, threads, k, inputs + k),
        MarkTest::SharedBy { register, variable } => rules::shared_by(
            plain, reading, readers, register, variable, k,
        ),
        MarkTest::OtherReads { thread, variable } => masks::has(
            masks::without(rules::entry(reading, variable), thread),
            k,
        ),
        MarkTest::Reads(v) => masks::has(rules::entry(reading, v), k),
        MarkTest::WireReads(v) => masks::has(rules::entry(readers, v), k),
        MarkTest::Upward => rules::reads_above(
            readers,
            layout.inputs,
            layout.registers,
            layout.wires,
            k,
        ),
        MarkTest::Above(w) => rules::upward(readers, w, inputs + registers + k, k),
    }
}

// The lowest number below n of which the test holds, n where there is none.
pub fn first_marked(
    layout: Layout,
    readers: &[u32; 80],
    plain: &[u32; 8],
    later: &[u32; 8],
    reading: &[u32; 80],
    test: MarkTest,
    n: usize,
) -> usize
    requires { n ≤ 256 }
    ensures value { result ≡ lowest n (by_marks layout readers.now plain.now later.now reading.now test) }
    ensures upper_bound { result ≤ n }
{
    for k in 0..n {
        if by_marks(layout, readers, plain, later, reading, test, k) {
            return k;
        }
    }
    n
}

// Number 12: a register that two threads write.
pub fn double_written(
    layout: Layout,
    readers: &[u32; 80],
    plain: &[u32; 8],
    later: &[u32; 8],
    reading: &[u32; 80],
) -> Witness
    ensures { result ≡ double_written_at layout readers.now plain.now later.now reading.now }
{
    let threads = wide(layout.threads);
    let registers = wide(layout.registers);
    let twice = MarkTest::Twice;
    let r = first_marked(layout, readers, plain, later, reading, twice, registers);
    let writes = MarkTest::Writes(r);
    let i = first_marked(layout, readers, plain, later, reading, writes, threads);
    let other = MarkTest::OtherWrites {
        thread: i,
        register: r,
    };
    let j = first_marked(layout, readers, plain, later, reading, other, threads);
    a_register(12, r, i, j)
}

// Number 13: a register that is written both ways.
pub fn written_both_ways(
    layout: Layout,
    readers: &[u32; 80],
    plain: &[u32; 8],
    later: &[u32; 8],
    reading: &[u32; 80],
) -> Witness
    ensures { result ≡ written_both_ways_at layout readers.now plain.now later.now reading.now }
{
    let threads = wide(layout.threads);
    let registers = wide(layout.registers);
    let both = MarkTest::Both;
    let r = first_marked(layout, readers, plain, later, reading, both, registers);
    let sets = MarkTest::Plain(r);
    let i = first_marked(layout, readers, plain, later, reading, sets, threads);
    let defers = MarkTest::Later(r);
    let j = first_marked(layout, readers, plain, later, reading, defers, threads);
    a_register(13, r, i, j)
}

// Number 14: a register that is written by plain assignment and read by another thread or a wire.
pub fn shared_register(
    layout: Layout,
    readers: &[u32; 80],
    plain: &[u32; 8],
    later: &[u32; 8],
    reading: &[u32; 80],
) -> Witness
    ensures { result ≡ shared_register_at layout readers.now plain.now later.now reading.now }
{
    let threads = wide(layout.threads);
    let registers = wide(layout.registers);
    let wires = wide(layout.wires);
    let shared = MarkTest::Shared;
    let r = first_marked(layout, readers, plain, later, reading, shared, registers);
    let variable = wide(layout.inputs) + r;
    let sets = MarkTest::SharedBy {
        register: r,
        variable,
    };
    let i = first_marked(layout, readers, plain, later, reading, sets, threads);
    let other = MarkTest::OtherReads {
        thread: i,
        variable,
    };
    let j = first_marked(layout, readers, plain, later, reading, other, threads);
    if j < threads {
        return a_register(14, r, i, j);
    }
    let reads = MarkTest::WireReads(variable);
    let k = first_marked(layout, readers, plain, later, reading, reads, wires);
    a_wire(14, r, i, k, 0)
}

// Number 19: a wire that reads itself or a higher one.
pub fn upward_wire(
    layout: Layout,
    readers: &[u32; 80],
    plain: &[u32; 8],
    later: &[u32; 8],
    reading: &[u32; 80],
) -> Witness
    ensures { result ≡ upward_wire_at layout readers.now plain.now later.now reading.now }
{
    let wires = wide(layout.wires);
    let upward = MarkTest::Upward;
    let k = first_marked(layout, readers, plain, later, reading, upward, wires);
    let above = MarkTest::Above(k);
    let j = first_marked(layout, readers, plain, later, reading, above, wires);
    a_wire(19, 0, 0, k, j)
}
