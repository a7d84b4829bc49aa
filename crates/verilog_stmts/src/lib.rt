// Statements of Verilog text: read from the tables of its tokens, written as the sheet has them (specs/Stmts.antt).
// Each function takes where it is and answers where it came to; what was refused once stays so.
#![tactic(auto)]

ghost use Rattle.std.specs.Prelude.{◌≡◌, ◌∷◌, [], ◌-◌, ◌%◌};
ghost use Rattle.verilog_exprs.specs.Rows.{wrote};
ghost use Rattle.verilog_stmts.specs.Steps.{refused, after, is_next, write, front, stamped, named};
ghost use Rattle.verilog_stmts.specs.Stmts.{value, label_value, label_at, case_end};
ghost use Rattle.verilog_stmts.specs.Written.{condition_in, subject_in, closed_in, assignment_in, heading_in, or_null_in};
ghost use Rattle.verilog_stmts.specs.Written.{conditional_in, block_rest_in};
ghost use Rattle.verilog_stmts.specs.Written.{block_in, defaulted_in, labelled_in, items_behind_in, case_items_in, case_statement_in};
ghost use Rattle.verilog_stmts.specs.Written.{statement_in};
ghost use Rattle.verilog_stmts.specs.Events.{one_more, counted, term, event, events, control};

use verilog_bytes::{put_front, put_pair, turn};
use verilog_exprs::{Put, expect, expression, kind_at, number_at, put_constant, width_of};
use verilog_tokens::Kind;
use writing::put_byte;

// A case's tests so far: its subject's token, the place of the last test, where its default begins and ends, and whether it has one.
#[derive(Clone, Copy)]
struct Case {
    subject: usize,
    last: usize,
    from: usize,
    mid: usize,
    closed: bool,
}

// ---- one token

// The lowest byte of a word.
fn low(w: u32) -> u8
    ensures { result ≡ w % 256 }
{
    (w % 256) as u8
}

// How many tokens are left.
pub fn left(count: u16, i: usize) -> u16
    ensures { result ≡ count - i }
{
    (count as usize).saturating_sub(i) as u16
}

// Refused here.
pub fn refused(at: Put) -> Put
    ensures { result ≡ refused at }
{
    Put { ok: false, ..at }
}

// Behind the token.
pub fn after(at: Put) -> Put
    ensures { result ≡ after at }
{
    let i = at.next;
    if i < 16385 {
        return Put { next: i + 1, ..at };
    }
    at
}

// Whether a token of a kind is next.
#[tactic(auto, unfolding(crate::specs::Steps::is_next))]
pub fn is_next(kinds: &[u8; 16385], k: u8, at: Put) -> bool
    ensures { result ≡ is_next kinds.now k at }
{
    at.ok && kind_at(kinds, at.next) == k
}

// ---- bytes

// A byte.
fn write(b: u8, out: &mut [u8; 65536], at: Put) -> Put
    ensures { wrote result out.new ≡ write (b ∷ []) (wrote at out.old) }
{
    let p = put_byte(b, out, at.pos);
    Put { pos: p, ..at }
}

// Two bytes.
fn write_pair(a: u8, b: u8, out: &mut [u8; 65536], at: Put) -> Put
    ensures { wrote result out.new ≡ write (a ∷ b ∷ []) (wrote at out.old) }
{
    let p = put_pair(a, b, out, at.pos);
    Put { pos: p, ..at }
}

// A byte in front of all that stands from a place on.
fn front(b: u8, out: &mut [u8; 65536], from: usize, at: Put) -> Put
    ensures { wrote result out.new ≡ front b from (wrote at out.old) }
{
    let p = put_front(b, out, from, at.pos);
    Put { pos: p, ..at }
}

// A byte in place of another.
fn stamp(b: u8, out: &mut [u8; 65536], place: usize)
    ensures { out.new ≡ stamped b place out.old }
{
    if place < 65536 {
        out[place] = b;
    }
}

// A name, whose number is written.
fn named(kinds: &[u8; 16385], numbers: &[u32; 16385], out: &mut [u8; 65536], at: Put) -> Put
    ensures { wrote result out.new ≡ named kinds.now numbers.now (wrote at out.old) }
{
    if is_next(kinds, Kind::Name as u8, at) {
        let b = low(number_at(numbers, at.next));
        return write(b, out, after(at));
    }
    refused(at)
}

// ---- events

// One more event; past 8 all counts are alike.
fn one_more(n: u8) -> u8
    ensures { result ≡ one_more n }
{
    if n < 9 { n + 1 } else { 9 }
}

// A count as it is written.
fn counted(n: u8) -> u8
    ensures { result ≡ counted n }
{
    if n <= 8 { n } else { 255 }
}

// An edge's number and a name.
fn term(
    kinds: &[u8; 16385],
    numbers: &[u32; 16385],
    edge: u8,
    out: &mut [u8; 65536],
    at: Put,
) -> Put
    ensures { wrote result out.new ≡ term kinds.now numbers.now edge (wrote at out.old) }
{
    let a = write(edge, out, at);
    named(kinds, numbers, out, a)
}

// An event.
fn event(kinds: &[u8; 16385], numbers: &[u32; 16385], out: &mut [u8; 65536], at: Put) -> Put
    ensures { wrote result out.new ≡ event kinds.now numbers.now (wrote at out.old) }
{
    if is_next(kinds, Kind::Posedge as u8, at) {
        return term(kinds, numbers, 1, out, after(at));
    }
    if is_next(kinds, Kind::Negedge as u8, at) {
        return term(kinds, numbers, 2, out, after(at));
    }
    term(kinds, numbers, 0, out, at)
}

// Events joined by `or` or `,`, of which n were read. The byte of their count stands at a place.
fn events(
    kinds: &[u8; 16385],
    numbers: &[u32; 16385],
    out: &mut [u8; 65536],
    at: Put,
    from: usize,
    n: u8,
    fuel: u16,
) -> Put
    ensures { wrote result out.new ≡
        events kinds.now numbers.now fuel from n (wrote at out.old) }
{
    if fuel == 0 {
        return refused(at);
    }
    let a = event(kinds, numbers, out, at);
    let m = one_more(n);
    if is_next(kinds, Kind::Or as u8, a) {
        return events(kinds, numbers, out, after(a), from, m, fuel - 1);
    }
    if is_next(kinds, Kind::Comma as u8, a) {
        return events(kinds, numbers, out, after(a), from, m, fuel - 1);
    }
    stamp(counted(m), out, from);
    a
}

// `@` and its events, as the beginning of a sequence.
fn control(
    kinds: &[u8; 16385],
    numbers: &[u32; 16385],
    count: u16,
    out: &mut [u8; 65536],
    at: Put,
) -> Put
    ensures { wrote result out.new ≡
        control kinds.now numbers.now count (wrote at out.old) }
{
    let a = write_pair(0x0C, 0x10, out, expect(kinds, at, Kind::At as u8));
    let b = write(1, out, a);
    if is_next(kinds, Kind::OpenParen as u8, b) {
        let c = after(b);
        let e = events(kinds, numbers, out, c, a.pos, 0, left(count, c.next));
        return expect(kinds, e, Kind::CloseParen as u8);
    }
    term(kinds, numbers, 0, out, b)
}

// ---- expressions within statements

// An expression.
pub fn value(
    kinds: &[u8; 16385],
    numbers: &[u32; 16385],
    count: u16,
    out: &mut [u8; 65536],
    at: Put,
) -> Put
    ensures { wrote result out.new ≡ value kinds.now numbers.now count (wrote at out.old) }
{
    if !at.ok {
        return at;
    }
    let i = at.next;
    expression(kinds, numbers, out, i, 1, at.pos, left(count, i) as usize)
}

// `(`, an expression, `)`.
fn condition(
    kinds: &[u8; 16385],
    numbers: &[u32; 16385],
    count: u16,
    out: &mut [u8; 65536],
    at: Put,
) -> Put
    ensures { wrote result out.new ≡
        condition_in kinds.now numbers.now count (wrote at out.old) }
{
    let e = value(
        kinds,
        numbers,
        count,
        out,
        expect(kinds, at, Kind::OpenParen as u8),
    );
    expect(kinds, e, Kind::CloseParen as u8)
}

// A case's subject, read at the buffer's end, where nothing is written.
fn subject(
    kinds: &[u8; 16385],
    numbers: &[u32; 16385],
    count: u16,
    out: &mut [u8; 65536],
    at: Put,
) -> Put
    ensures { wrote result out.new ≡
        subject_in kinds.now numbers.now count (wrote at out.old) }
{
    let e = condition(kinds, numbers, count, out, Put { pos: 65536, ..at });
    Put { pos: at.pos, ..e }
}

// An expression and `;`.
fn closed(
    kinds: &[u8; 16385],
    numbers: &[u32; 16385],
    count: u16,
    out: &mut [u8; 65536],
    at: Put,
) -> Put
    ensures { wrote result out.new ≡
        closed_in kinds.now numbers.now count (wrote at out.old) }
{
    let e = value(kinds, numbers, count, out, at);
    expect(kinds, e, Kind::Semicolon as u8)
}

// `v = e;` or `v <= e;`.
fn assignment(
    kinds: &[u8; 16385],
    numbers: &[u32; 16385],
    count: u16,
    out: &mut [u8; 65536],
    at: Put,
) -> Put
    ensures { wrote result out.new ≡
        assignment_in kinds.now numbers.now count (wrote at out.old) }
{
    let a = write(0x03, out, at);
    let n = named(kinds, numbers, out, a);
    if is_next(kinds, Kind::Equal as u8, n) {
        return closed(kinds, numbers, count, out, after(n));
    }
    stamp(0x23, out, at.pos);
    closed(
        kinds,
        numbers,
        count,
        out,
        expect(kinds, n, Kind::LessEqual as u8),
    )
}

// ---- a case's tests

// The value of a label: a size and a known value.
fn label_value(
    kinds: &[u8; 16385],
    numbers: &[u32; 16385],
    out: &mut [u8; 65536],
    width: u8,
    at: Put,
) -> Put
    ensures { wrote result out.new ≡
        label_value kinds.now numbers.now width (wrote at out.old) }
{
    if is_next(kinds, Kind::Known as u8, at) {
        let a = after(at);
        let v = number_at(numbers, at.next);
        let p = put_constant(width, v, out, a.pos);
        return Put { pos: p, ..a };
    }
    refused(at)
}

// A label: a size and a known value.
fn label(kinds: &[u8; 16385], numbers: &[u32; 16385], out: &mut [u8; 65536], at: Put) -> Put
    ensures { wrote result out.new ≡ label_at kinds.now numbers.now (wrote at out.old) }
{
    if is_next(kinds, Kind::Number as u8, at) {
        let w = width_of(number_at(numbers, at.next));
        return label_value(kinds, numbers, out, w, after(at));
    }
    refused(at)
}

// A test's first bytes, and the subject once more.
fn heading(
    kinds: &[u8; 16385],
    numbers: &[u32; 16385],
    count: u16,
    out: &mut [u8; 65536],
    at: Put,
    subject: usize,
) -> Put
    ensures { wrote result out.new ≡
        heading_in kinds.now numbers.now count subject (wrote at out.old) }
{
    let a = write(0x0E, out, at);
    let b = write_pair(0x31, 0x08, out, a);
    let e = value(kinds, numbers, count, out, Put { next: subject, ..b });
    Put { next: at.next, ..e }
}

// `endcase`: the default's bytes come last; without one the last test is an if.
fn case_end(out: &mut [u8; 65536], at: Put, c: Case) -> Put
    ensures { wrote result out.new ≡ case_end c (wrote at out.old) }
{
    let a = after(at);
    if c.closed {
        turn(out, c.from, c.mid, a.pos);
        return a;
    }
    stamp(0x06, out, c.last);
    a
}

// ---- statements

// A statement, or `;`.
#[cycle(block_block_rest_case_items_case_statement_conditional_defaulted_items_behind_labelled_or_null_statement)]
fn or_null(
    kinds: &[u8; 16385],
    numbers: &[u32; 16385],
    count: u16,
    out: &mut [u8; 65536],
    at: Put,
    fuel: usize,
) -> Put
    ensures { wrote result out.new ≡
        or_null_in kinds.now numbers.now count fuel (wrote at out.old) }
{
    if is_next(kinds, Kind::Semicolon as u8, at) {
        return write(0x00, out, after(at));
    }
    statement(kinds, numbers, count, out, at, fuel)
}

// `if`, its `else` at the nearest.
#[cycle(block_block_rest_case_items_case_statement_conditional_defaulted_items_behind_labelled_or_null_statement)]
fn conditional(
    kinds: &[u8; 16385],
    numbers: &[u32; 16385],
    count: u16,
    out: &mut [u8; 65536],
    at: Put,
    fuel: usize,
) -> Put
    ensures { wrote result out.new ≡
        conditional_in kinds.now numbers.now count fuel (wrote at out.old) }
{
    let a = write(0x06, out, after(at));
    let c = condition(kinds, numbers, count, out, a);
    let b = or_null(kinds, numbers, count, out, c, fuel);
    if is_next(kinds, Kind::Else as u8, b) {
        stamp(0x0E, out, at.pos);
        return or_null(kinds, numbers, count, out, after(b), fuel);
    }
    b
}

// The statements behind one that was written from a place on, up to `end`.
#[cycle(block_block_rest_case_items_case_statement_conditional_defaulted_items_behind_labelled_or_null_statement)]
fn block_rest(
    kinds: &[u8; 16385],
    numbers: &[u32; 16385],
    count: u16,
    out: &mut [u8; 65536],
    at: Put,
    from: usize,
    fuel: usize,
    turns: u16,
) -> Put
    ensures { wrote result out.new ≡
        block_rest_in kinds.now numbers.now count fuel turns from (wrote at out.old) }
{
    if turns == 0 {
        return refused(at);
    }
    if !at.ok {
        return at;
    }
    if is_next(kinds, Kind::End as u8, at) {
        return after(at);
    }
    let a = front(0x0C, out, from, at);
    let b = statement(kinds, numbers, count, out, a, fuel);
    block_rest(kinds, numbers, count, out, b, a.pos, fuel, turns - 1)
}

// The statements behind `begin`.
#[cycle(block_block_rest_case_items_case_statement_conditional_defaulted_items_behind_labelled_or_null_statement)]
fn block(
    kinds: &[u8; 16385],
    numbers: &[u32; 16385],
    count: u16,
    out: &mut [u8; 65536],
    at: Put,
    fuel: usize,
) -> Put
    ensures { wrote result out.new ≡
        block_in kinds.now numbers.now count fuel (wrote at out.old) }
{
    let turns = left(count, at.next);
    if turns == 0 {
        return refused(at);
    }
    if is_next(kinds, Kind::End as u8, at) {
        return write(0x00, out, after(at));
    }
    let b = statement(kinds, numbers, count, out, at, fuel);
    block_rest(kinds, numbers, count, out, b, at.pos, fuel, turns - 1)
}

// `default`, with `:` or without, and its statement.
#[cycle(block_block_rest_case_items_case_statement_conditional_defaulted_items_behind_labelled_or_null_statement)]
fn defaulted(
    kinds: &[u8; 16385],
    numbers: &[u32; 16385],
    count: u16,
    out: &mut [u8; 65536],
    at: Put,
    fuel: usize,
) -> Put
    ensures { wrote result out.new ≡
        defaulted_in kinds.now numbers.now count fuel (wrote at out.old) }
{
    let a = after(at);
    if is_next(kinds, Kind::Colon as u8, a) {
        return or_null(kinds, numbers, count, out, after(a), fuel);
    }
    or_null(kinds, numbers, count, out, a, fuel)
}

// A label and its statement.
#[cycle(block_block_rest_case_items_case_statement_conditional_defaulted_items_behind_labelled_or_null_statement)]
fn labelled(
    kinds: &[u8; 16385],
    numbers: &[u32; 16385],
    count: u16,
    out: &mut [u8; 65536],
    at: Put,
    subject: usize,
    fuel: usize,
) -> Put
    ensures { wrote result out.new ≡
        labelled_in kinds.now numbers.now count fuel subject (wrote at out.old) }
{
    let a = heading(kinds, numbers, count, out, at, subject);
    let l = label(kinds, numbers, out, a);
    let b = expect(kinds, l, Kind::Colon as u8);
    or_null(kinds, numbers, count, out, b, fuel)
}

// Behind an item: `endcase`, or further items.
#[cycle(block_block_rest_case_items_case_statement_conditional_defaulted_items_behind_labelled_or_null_statement)]
fn items_behind(
    kinds: &[u8; 16385],
    numbers: &[u32; 16385],
    count: u16,
    out: &mut [u8; 65536],
    at: Put,
    c: Case,
    fuel: usize,
    turns: u16,
) -> Put
    ensures { wrote result out.new ≡
        items_behind_in kinds.now numbers.now count fuel turns c (wrote at out.old) }
{
    if is_next(kinds, Kind::Endcase as u8, at) {
        return case_end(out, at, c);
    }
    case_items(kinds, numbers, count, out, at, c, fuel, turns)
}

// A case's items.
#[cycle(block_block_rest_case_items_case_statement_conditional_defaulted_items_behind_labelled_or_null_statement)]
fn case_items(
    kinds: &[u8; 16385],
    numbers: &[u32; 16385],
    count: u16,
    out: &mut [u8; 65536],
    at: Put,
    c: Case,
    fuel: usize,
    turns: u16,
) -> Put
    ensures { wrote result out.new ≡
        case_items_in kinds.now numbers.now count fuel turns c (wrote at out.old) }
{
    if turns == 0 {
        return refused(at);
    }
    if !at.ok {
        return at;
    }
    if is_next(kinds, Kind::Default as u8, at) {
        if c.closed {
            return refused(at);
        }
        let d = defaulted(kinds, numbers, count, out, at, fuel);
        let e = Case {
            from: at.pos,
            mid: d.pos,
            closed: true,
            ..c
        };
        return items_behind(kinds, numbers, count, out, d, e, fuel, turns - 1);
    }
    let l = labelled(kinds, numbers, count, out, at, c.subject, fuel);
    let e = Case { last: at.pos, ..c };
    items_behind(kinds, numbers, count, out, l, e, fuel, turns - 1)
}

// `case`.
#[cycle(block_block_rest_case_items_case_statement_conditional_defaulted_items_behind_labelled_or_null_statement)]
fn case_statement(
    kinds: &[u8; 16385],
    numbers: &[u32; 16385],
    count: u16,
    out: &mut [u8; 65536],
    at: Put,
    fuel: usize,
) -> Put
    ensures { wrote result out.new ≡
        case_statement_in kinds.now numbers.now count fuel (wrote at out.old) }
{
    let a = after(at);
    let b = after(a);
    let c = subject(kinds, numbers, count, out, a);
    let o = Case {
        subject: b.next,
        last: 0,
        from: 0,
        mid: 0,
        closed: false,
    };
    case_items(kinds, numbers, count, out, c, o, fuel, left(count, c.next))
}

const BEGIN: u8 = Kind::Begin as u8;

const IF: u8 = Kind::If as u8;

const CASE: u8 = Kind::Case as u8;

const WHILE: u8 = Kind::While as u8;

const FOREVER: u8 = Kind::Forever as u8;

const AT: u8 = Kind::At as u8;

// A statement, with so many levels left.
#[cycle(block_block_rest_case_items_case_statement_conditional_defaulted_items_behind_labelled_or_null_statement)]
pub fn statement(
    kinds: &[u8; 16385],
    numbers: &[u32; 16385],
    count: u16,
    out: &mut [u8; 65536],
    at: Put,
    fuel: usize,
) -> Put
    ensures { wrote result out.new ≡
        statement_in kinds.now numbers.now count fuel (wrote at out.old) }
{
    if fuel == 0 {
        return refused(at);
    }
    if !at.ok {
        return at;
    }
    let i = at.next;
    match kind_at(kinds, i) {
        IF => conditional(kinds, numbers, count, out, at, fuel - 1),
        CASE => case_statement(kinds, numbers, count, out, at, fuel - 1),
        WHILE => {
            let a = write(0x46, out, after(at));
            let c = condition(kinds, numbers, count, out, a);
            statement(kinds, numbers, count, out, c, fuel - 1)
        }
        FOREVER => {
            let a = write(0x44, out, after(at));
            statement(kinds, numbers, count, out, a, fuel - 1)
        }
        AT => {
            let c = control(kinds, numbers, count, out, at);
            or_null(kinds, numbers, count, out, c, fuel - 1)
        }
        BEGIN => block(kinds, numbers, count, out, after(at), fuel - 1),
        _ => assignment(kinds, numbers, count, out, at),
    }
}
