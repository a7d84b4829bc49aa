// The replay program: a script of calls on standard input, a line for each of its records on standard output. Everything that
// matters is in the library; a script of any bytes is run as far as it goes.
#![tactic(auto)]

ghost use Rattle.std.specs.Prelude.{◌≤◌, length};

mod hex;

use dispatch::Dispatched;
use events::{Chosen, Inputs, Verdict};
use hex::{say_hex, say_words};
use nextstate::{Clocked, Registers};
use state::{Counters, State};
use std::io::{Print, Read};

// What the records work on: the sheet, the state that the next record finds, and the words of the two tables.
#[derive(Drop)]
struct Replay<'a> {
    rt: &'a HostRuntime,
    sheet: &'a [u8],
    state: State,
    nodes: [u16; 16385],
    rows: [u16; 1057],
}

// Turn records: how many there are, and the first 16 of them.
#[derive(Clone, Copy)]
struct Turns {
    count: usize,
    busy: [bool; 16],
    turns: [u32; 16],
}

// ---- reading. What is not there whole is nothing: the script can't be read on. Each `take` is a read of the system's, and each `say` a
// write, which are most of the time of a short record: so what stands together is taken together.

// Fills the buffer from the script, up to its end or to a read that fails. How many bytes were there?
fn read_full(rt: &HostRuntime, buf: &mut [u8]) -> usize
    ensures { result ≤ length buf.new }
{
    let mut input = rt.stdin();
    let mut done = 0;
    // a loop over `read`: std's calls that read on say nothing of what came before a read that fails
    while done < buf.len() {
        match input.read(&mut buf[done..]) {
            Ok(0) => return done,
            Ok(n) => done += n,
            Err(_) => return done,
        }
    }
    done
}

// So many bytes.
fn take<const N: usize>(rt: &HostRuntime) -> Option<[u8; N]> {
    let mut bytes = [0u8; N];
    let found = read_full(rt, &mut bytes);
    if found == N { Some(bytes) } else { None }
}

// A byte.
fn byte(rt: &HostRuntime) -> Option<u8> {
    let [b] = take::<1>(rt)?;
    Some(b)
}

// Two bytes, the low one first.
fn word(rt: &HostRuntime) -> Option<u16> {
    Some(u16::from_le_bytes(take(rt)?))
}

// Two words.
fn words(rt: &HostRuntime) -> Option<(u16, u16)> {
    let [a, b, c, d] = take::<4>(rt)?;
    Some((u16::from_le_bytes([a, b]), u16::from_le_bytes([c, d])))
}

// A user and a word.
fn user_and_word(rt: &HostRuntime) -> Option<(u8, u16)> {
    let [user, a, b] = take::<3>(rt)?;
    Some((user, u16::from_le_bytes([a, b])))
}

// The front of a buffer, filled.
fn take_front<'a>(rt: &HostRuntime, buf: &'a mut [u8], n: u16) -> Option<&'a [u8]> {
    let n = usize::from(n);
    let front = buf.get_mut(..n)?;
    if read_full(rt, front) < n {
        return None;
    }
    buf.get(..n)
}

// One value: four bytes of number, then four bytes of marks.
fn input(rt: &HostRuntime) -> Option<(u32, u32)> {
    let [a, b, c, d, e, f, g, h] = take::<8>(rt)?;
    Some((
        u32::from_le_bytes([a, b, c, d]),
        u32::from_le_bytes([e, f, g, h]),
    ))
}

// A flag, 0 or 1, and four bytes of number.
fn flagged(rt: &HostRuntime) -> Option<(bool, u32)> {
    let [flag, a, b, c, d] = take::<5>(rt)?;
    if flag > 1 {
        return None;
    }
    Some((flag == 1, u32::from_le_bytes([a, b, c, d])))
}

// The allowances of four users.
fn allowances(rt: &HostRuntime) -> Option<[u32; 4]> {
    let [a, b, c, d, e, f, g, h, i, j, k, l, m, n, o, p] = take::<16>(rt)?;
    Some([
        u32::from_le_bytes([a, b, c, d]),
        u32::from_le_bytes([e, f, g, h]),
        u32::from_le_bytes([i, j, k, l]),
        u32::from_le_bytes([m, n, o, p]),
    ])
}

// A count and so many input values, of which the first 16 are handed on.
fn inputs(rt: &HostRuntime) -> Option<Inputs> {
    let count = byte(rt)?;
    let mut value = [0u32; 16];
    let mut unknown = [0u32; 16];
    for k in 0..usize::from(count) {
        let (n, marks) = input(rt)?;
        if k < 16 {
            value[k] = n;
            unknown[k] = marks;
        }
    }
    Some(Inputs {
        count,
        value,
        unknown,
    })
}

// A count and so many turn records, of which the first 16 are handed on.
fn turn_records(rt: &HostRuntime) -> Option<Turns> {
    let count = usize::from(byte(rt)?);
    let mut busy = [false; 16];
    let mut turns = [0u32; 16];
    for k in 0..count {
        let (flag, n) = flagged(rt)?;
        if k < 16 {
            busy[k] = flag;
            turns[k] = n;
        }
    }
    Some(Turns { count, busy, turns })
}

// 32 register values and 8 places.
fn registers(rt: &HostRuntime) -> Option<Registers> {
    let mut value = [0u32; 32];
    let mut unknown = [0u32; 32];
    for r in 0..32 {
        let (n, marks) = input(rt)?;
        value[r] = n;
        unknown[r] = marks;
    }
    Some(Registers {
        value,
        unknown,
        places: take(rt)?,
    })
}

// ---- writing. A line that nobody takes is lost, and the script goes on.

fn say(rt: &HostRuntime, text: &[u8]) {
    let _ = rt.write_all(text);
}

fn say_number(rt: &HostRuntime, n: u64) {
    let _ = rt.print(n);
}

// A word, a blank and a number, and the end of the line.
fn say_line(rt: &HostRuntime, word: &[u8], n: u8) {
    say(rt, word);
    say_number(rt, u64::from(n));
    say(rt, b"\n");
}

// Registers or wires in hexadecimal: of each its number, then its marks, the lowest byte first.
fn say_values(rt: &HostRuntime, value: &[u32; 32], unknown: &[u32; 32]) {
    let mut bytes = [0u8; 256];
    for (part, (n, marks)) in bytes.chunks_exact_mut(8).zip(value.iter().zip(unknown)) {
        let [a, b, c, d] = n.to_le_bytes();
        let [e, f, g, h] = marks.to_le_bytes();
        part.copy_from_slice(&[a, b, c, d, e, f, g, h]);
    }
    say_hex(rt, &bytes);
}

// Turn records in hexadecimal: of each whether it is busy, then its turns.
fn say_turns(rt: &HostRuntime, busy: &[bool], turns: &[u32]) {
    let mut bytes = [0u8; 80];
    for (part, (&flag, n)) in bytes.chunks_exact_mut(5).zip(busy.iter().zip(turns)) {
        let [a, b, c, d] = n.to_le_bytes();
        part.copy_from_slice(&[u8::from(flag), a, b, c, d]);
    }
    say_hex(rt, &bytes[..5 * busy.len().min(16)]);
}

// What a cycle run gave.
fn say_cycled(rt: &HostRuntime, c: &Clocked) {
    say(rt, b"cycle ");
    say_number(rt, u64::from(c.number));
    say(rt, b" ");
    say_values(rt, &c.value, &c.unknown);
    say_hex(rt, &c.places);
    say_values(rt, &c.wire, &c.unsure);
    say(rt, b"\n");
}

// A number, a blank and a word, and the end of the line.
fn say_number_and(rt: &HostRuntime, n: u8, word: &[u8]) {
    say_number(rt, u64::from(n));
    say(rt, word);
}

// How a plain run ended.
fn say_verdict(rt: &HostRuntime, v: Verdict) {
    match v {
        Verdict::Quiet => say(rt, b"0 quiet\n"),
        Verdict::Spent => say(rt, b"0 spent\n"),
        Verdict::Stopped(n) => say_number_and(rt, n, b" full\n"),
        Verdict::Refused(n) => say_number_and(rt, n, b" refused\n"),
    }
}

impl Replay<'_> {
    // ---- the records that leave the state alone

    // `N`: reads the sheet.
    fn read(&self) {
        let r = sheet::read(self.sheet);
        say(self.rt, b"read ");
        say_number(self.rt, u64::from(r.number));
        say(self.rt, b" ");
        say_number(self.rt, r.place as u64);
        say(self.rt, b"\n");
    }

    // `Q`: the listing.
    fn list(&self) {
        let mut text = [0u8; 65536];
        let length = listings::print(self.sheet, &mut text);
        say(self.rt, b"list ");
        say_hex(self.rt, &text[..length]);
        say(self.rt, b"\n");
    }

    // `D`: the state, saved, without its form byte.
    fn save(&self) {
        let mut bytes = [0u8; 1025];
        saved::save(self.state, &mut bytes);
        say(self.rt, b"state ");
        say_hex(self.rt, &bytes[1..]);
        say(self.rt, b"\n");
    }

    // `X`: extraction, lent the first words of both.
    fn extract(&mut self) -> Option<()> {
        let (a, b) = words(self.rt)?;
        let nodes = self.nodes.get_mut(..usize::from(a))?;
        let rows = self.rows.get_mut(..usize::from(b))?;
        let number = extraction::extract(self.sheet, nodes, rows);
        say_line(self.rt, b"extract ", number);
        Some(())
    }

    // `T`: all words.
    fn tell_tables(&self) {
        say(self.rt, b"nodes ");
        say_words(self.rt, &self.nodes);
        say(self.rt, b" rows ");
        say_words(self.rt, &self.rows);
        say(self.rt, b"\n");
    }

    // `W`: stores one word, where the index lies inside its table. Behind the table, a flag, stand the index and the word.
    fn store(&mut self) -> Option<()> {
        let [table, a, b, c, d] = take::<5>(self.rt)?;
        let i = usize::from(u16::from_le_bytes([a, b]));
        let w = u16::from_le_bytes([c, d]);
        match table {
            0 if i < self.nodes.len() => self.nodes[i] = w,
            1 if i < self.rows.len() => self.rows[i] = w,
            0 | 1 => {}
            _ => return None,
        }
        say(self.rt, b"word\n");
        Some(())
    }

    // `K`: a cycle run on the first words of both.
    fn cycle(&self) -> Option<()> {
        let (a, b) = words(self.rt)?;
        let nodes = self.nodes.get(..usize::from(a))?;
        let rows = self.rows.get(..usize::from(b))?;
        let before = registers(self.rt)?;
        let inputs = inputs(self.rt)?;
        let c = cycles::cycle(self.sheet, nodes, rows, before, inputs);
        say_cycled(self.rt, &c);
        Some(())
    }

    // `B`: the dispatcher.
    fn dispatch(&self) -> Option<()> {
        let Turns {
            count,
            busy,
            mut turns,
        } = turn_records(self.rt)?;
        let last = byte(self.rt)?;
        let busy = busy.get(..count)?;
        let turns = turns.get_mut(..count)?;
        let answer = dispatch::slices::dispatch_planes(busy, turns, last);
        say(self.rt, b"dispatch ");
        say_number(self.rt, u64::from(dispatch::number_of(answer)));
        say(self.rt, b" ");
        match answer {
            Dispatched::Picked(n) => say_number(self.rt, u64::from(n)),
            _ => say(self.rt, b"none"),
        }
        say(self.rt, b" ");
        say_turns(self.rt, busy, turns);
        say(self.rt, b"\n");
        Some(())
    }

    // `V`: a text's sheet, lent the first bytes of a buffer.
    fn read_text(&self) -> Option<()> {
        let mut text = [0u8; 65536];
        let n = word(self.rt)?;
        let text = take_front(self.rt, &mut text, n)?;
        let room = word(self.rt)?;
        let mut buffer = [170u8; 8193];
        let lent = buffer.get_mut(..usize::from(room))?;
        let r = verilog_read::read_text(text, lent);
        say(self.rt, b"text ");
        say_number(self.rt, u64::from(r.number));
        say(self.rt, b" ");
        say_number(self.rt, r.length as u64);
        say(self.rt, b" ");
        say_hex(self.rt, &buffer);
        say(self.rt, b"\n");
        Some(())
    }

    // ---- the records that change it

    // The line of a call that answers with a number, and the state that it gave back.
    fn tell(&mut self, text: &[u8], c: Chosen) {
        say_line(self.rt, text, c.number);
        self.state = c.state;
    }

    // `S`: the state becomes the start state, unless refused.
    fn start(&mut self) -> Option<()> {
        let c = simulator::start(self.sheet, allowances(self.rt)?);
        say_line(self.rt, b"start ", c.number);
        if c.number == 0 {
            self.state = c.state;
        }
        Some(())
    }

    // `C`: a choice of a user.
    fn choose(&mut self) -> Option<()> {
        let [user, choice] = take::<2>(self.rt)?;
        let c = simulator::choose(self.sheet, self.state, user, choice);
        self.tell(b"choose ", c);
        Some(())
    }

    // `R`: a run over a list of a user's choices.
    fn run(&mut self) -> Option<()> {
        let (user, n) = user_and_word(self.rt)?;
        let mut choices = [0u8; 65536];
        let choices = take_front(self.rt, &mut choices, n)?;
        let r = simulator::run(self.sheet, self.state, user, choices);
        say(self.rt, b"run ");
        say_number(self.rt, r.accepted as u64);
        say_line(self.rt, b" ", r.number);
        self.state = r.state;
        Some(())
    }

    // `P`: the plain run of a user.
    fn run_plain(&mut self) -> Option<()> {
        let (user, limit) = user_and_word(self.rt)?;
        let r = simulator::run_plain(self.sheet, self.state, user, limit);
        say(self.rt, b"plain ");
        say_number(self.rt, u64::from(r.accepted));
        say(self.rt, b" ");
        say_verdict(self.rt, r.verdict);
        self.state = r.state;
        Some(())
    }

    // `I`: an instant.
    fn enter(&mut self) -> Option<()> {
        let inputs = inputs(self.rt)?;
        let c = simulator::instant(self.sheet, self.state, inputs);
        self.tell(b"instant ", c);
        Some(())
    }

    // `L`: the state becomes this one, unjudged.
    fn load(&mut self) -> Option<()> {
        let mut bytes = [0u8; 1025];
        bytes[0] = 4;
        if read_full(self.rt, &mut bytes[1..]) < 1024 {
            return None;
        }
        let l = saved::load(&bytes);
        if !l.found {
            return None;
        }
        say(self.rt, b"load\n");
        self.state = l.state;
        Some(())
    }

    // `M`: a saved state of any form is brought over by the sheet; the state becomes it, unless refused.
    fn bring(&mut self) -> Option<()> {
        // the buffer stands first: behind the read it would be cleared twice
        let mut bytes = [0u8; 65536];
        let n = word(self.rt)?;
        let old = take_front(self.rt, &mut bytes, n)?;
        let b = saved::bring_over(self.sheet, old, allowances(self.rt)?);
        say_line(self.rt, b"bring ", b.number);
        if b.number == 0 {
            self.state = b.state;
        }
        Some(())
    }

    // ---- the script

    // A record by its letter, of those that read no more than that.
    fn tell_of(&self, letter: u8) -> Option<()> {
        match letter {
            b'N' => self.read(),
            b'Q' => self.list(),
            b'D' => self.save(),
            b'T' => self.tell_tables(),
            _ => return None,
        }
        Some(())
    }

    // A record by its letter.
    fn record(&mut self, letter: u8) -> Option<()> {
        match letter {
            b'S' => self.start(),
            b'C' => self.choose(),
            b'R' => self.run(),
            b'P' => self.run_plain(),
            b'I' => self.enter(),
            b'L' => self.load(),
            b'M' => self.bring(),
            b'X' => self.extract(),
            b'W' => self.store(),
            b'K' => self.cycle(),
            b'B' => self.dispatch(),
            b'V' => self.read_text(),
            _ => self.tell_of(letter),
        }
    }

    // All records; the end of the script stands where a letter could. A proved loop has to end, and nothing says that a script does: so
    // it counts its turns, up to a number that no run uses up.
    fn records(&mut self) -> Option<()> {
        for _ in 0..u64::MAX {
            let Some(letter) = byte(self.rt) else {
                break;
            };
            self.record(letter)?;
        }
        Some(())
    }
}

// The state before the first record: all zero, nothing unknown.
fn zero() -> State {
    State {
        value: [0u32; 80],
        unknown: [0u32; 80],
        pending: [0u32; 32],
        unsure: [0u32; 32],
        held: [false; 32],
        places: [0u8; 8],
        due: [false; 32],
        counters: Counters {
            time: 0,
            counts: [0u64; 4],
            allowances: [0u32; 4],
        },
    }
}

// A script: its head is the form, 4, the sheet's length and the sheet. The words of the tables are all 43690 at first.
fn play(rt: &HostRuntime) -> Option<()> {
    let [form, a, b] = take::<3>(rt)?;
    if form != 4 {
        return None;
    }
    let mut sheet = [0u8; 65536];
    let sheet = take_front(rt, &mut sheet, u16::from_le_bytes([a, b]))?;
    let mut replay = Replay {
        rt,
        sheet,
        state: zero(),
        nodes: [43690u16; 16385],
        rows: [43690u16; 1057],
    };
    replay.records()
}

fn main(rt: HostRuntime) {
    if play(&rt).is_none() {
        say(&rt, b"bad script\n");
    }
}
