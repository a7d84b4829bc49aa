// Every refusal in words, by its number. The words stand in two tables, a line for each number; each contract says that the buffer and
// the new position are what putting that line gives.
#![tactic(auto)]

ghost use Rattle.std.specs.Prelude.{◌≡◌, drop};
ghost use Rattle.writing.specs.Buffer.{filled, puts};
ghost use Rattle.reasons.specs.Reasons.{first_line, other_lines, line_of, reason, allowed};

use writing::put_byte;

// Where the line after the one at a place begins, or the table's end.
pub fn next_line(table: &[u8], from: usize) -> usize
    ensures { drop result table.now ≡ other_lines (drop from table.now) }
{
    for i in from..table.len() {
        if table[i] == b'\n' {
            return i + 1;
        }
    }
    from.max(table.len())
}

// The line at a place.
pub fn put_rest(table: &[u8], from: usize, text: &mut [u8; 65536], pos: usize) -> usize
    ensures { filled text.new result ≡ puts (filled text.old pos) (first_line (drop from table.now)) }
{
    let mut p = pos;
    for i in from..table.len() {
        if table[i] == b'\n' {
            return p;
        }
        p = put_byte(table[i], text, p);
    }
    p
}

// Line n of a table.
pub fn put_line(table: &[u8], n: usize, text: &mut [u8; 65536], pos: usize) -> usize
    ensures { filled text.new result ≡ puts (filled text.old pos) (line_of n table.now) }
{
    let mut from = 0;
    for _ in 0..n {
        from = next_line(table, from);
    }
    put_rest(table, from, text, pos)
}

// What the number refuses.
pub fn put_reason(number: u8, text: &mut [u8; 65536], pos: usize) -> usize
    ensures { filled text.new result ≡ puts (filled text.old pos) (reason number) }
{
    put_line(
        b"nothing is refused\nthe sheet is over 8,192 bytes\nthe sheet ends early\na count is out of range\na width is out of range\na bit map that is not allowed\na field is out of range\nnested too deep\nwidths disagree\nthe target is no register\nbytes stand after the end\na thread has over 256 instructions\ntwo threads write one register\na register is written both ways\na register written by plain assignment is read elsewhere\na wait other than the single posedge of the clock\na thread does not start with a wait\na loop or a thread body does not surely wait\nthe clock is read in an expression\na wire reads itself or a higher wire\nover 32 waits\nover 4,096 nodes\nthe choice names no item\na lent table has another length\nthe tables do not hold together\nthe inputs are of the wrong number, too wide, or have a number under a mark\nno such number\nno such number\nno such number\nno such number\nno such number\nthe state does not fit the sheet\nan instant while the state is not quiet\nthe item is not enabled\na commit while an item is enabled\na commit with nothing pending\nthe time or a module's turns are full\nno such number\nno such number\nno such number\nno such number\nthe text is over 16,384 bytes\nthe text is none of the forms that are read\na name is undeclared or declared twice, or a wire has not one assign\nno such number\nno such number\nthere is no such user\nthe user's allowance of choices is used up\nthe list has no record, or more than eight\nthe last-served number is outside the list",
        number as usize,
        text,
        pos,
    )
}

// What is allowed in its place.
pub fn put_allowed(number: u8, text: &mut [u8; 65536], pos: usize) -> usize
    ensures { filled text.new result ≡ puts (filled text.old pos) (allowed number) }
{
    put_line(
        b"\nat most 8,192 bytes\nas many bytes as the counts and the maps ask for\ninputs 1 to 16, registers 1 to 32, wires 0 to 32, threads 1 to 8\n1 to 32, and 1 for the clock, which is input 0\n02h 04h 0Ch 11h 31h 71h for expressions, 00h 03h 06h 0Ch 0Eh 10h 23h 44h 46h for statements\noperators 1 and 2 under 11h, 3 to 9 under 31h, 10 under 71h; a variable of the sheet; a constant below 2^width, its width 1 to 32; edges 0 to 2; 1 to 8 edges in a wait\nexpressions at most 16 deep, statements at most 64\nequal widths of both operands, of both arms, of a target or wire and its expression; edges 1 and 2 on one-bit variables\nthe variables of the registers, which follow the inputs\nnothing after the last thread\nat most 256 instructions a thread, the go at its end included\none writing thread for each register\nonly = or only <= for each register\na register that is written by = is read by its own thread only\nwaits on one edge, the posedge of input 0\na wait first: a wait, a sequence whose first part does, a forever whose body does\nbodies that surely wait: a wait, a forever, a sequence with a part that does, an if-else with both\nthe clock in waits only\nwires that read inputs, registers and lower wires\nat most 32 waits in all threads together\nat most 4,096 nodes, one for each variable included\nthreads, then wires, numbered from 0, and 255 for the commit\n16,384 words for the nodes and 1,056 for the rows\ntables as extraction gives them for this sheet\na value for each input but the clock, below 2^width\n\n\n\n\n\nvalues below 2^width, places inside their threads, marks of the sheet's wires and registers only, counts up to their allowances\nan instant when nothing is enabled or pending\na thread off a wait, a wire that is due\na commit when no thread and no wire is enabled\na commit when some assignment is pending\na time below 18,446,744,073,709,551,615, turns below 4,294,967,295\n\n\n\n\nat most 16,384 bytes\none module of inputs, registers, wires, assigns and always\neach name declared once by input, reg or wire, and one assign to each wire\n\n\nusers 0 to 3\na user with choices left: allowances are fixed at the start, up to 4,294,967,295\n1 to 8 records\na number below the list's length",
        number as usize,
        text,
        pos,
    )
}
