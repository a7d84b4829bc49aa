// The desk's command over the proved libraries: a module, out of a sheet or of Verilog text, listed, checked, run, extracted, compared,
// or written as Verilog or as a sheet. Everything that matters is in the libraries; this program reads files, calls them and writes
// what they give.
#![tactic(auto)]

mod comparing;
mod display;
mod ending;
mod expecting;
mod feed;
mod files;
mod machine;
mod mistakes;
mod names;
mod nets;
mod report;
mod running;
mod say;
mod showing;
mod states;
mod system;
mod texts;
mod wave;
mod words;

use files::show_word;
use options::{Command, Outcome, Request};
use sheet::Layout;
use sources::Words;
use std::process::ExitCode;
use system::{Stream, System};

fn help(system: &mut System) -> Result<(), Outcome> {
    show_word(
        system,
        b"walbryts: a clock-edge compiler and event simulator, proved

  walbryts list FILE              its pseudo-code
  walbryts check FILE             what it holds, and whether extraction accepts it
  walbryts run FILE INPUTS        its clock cycles, a line each
      --wires, --inputs           show the wires too, the inputs too
      --only A,B                  show these variables, by their names
      --hex, --binary             numbers in hexadecimal, in binary
      --csv                       commas in place of columns
      --from N, --to N            show the cycles from N on, up to N
      --every N                   show every Nth of them
      --expect FILE               hold the table to a file, and say the first difference
      --user N                    whose choices they are, 0 to 3
      --allowance A,B,C,D         how many choices each user has
      --seed N                    choices drawn by a seed in place of the plain run
      --by-expressions            by the extracted expressions in place of events
      --last                      show only the last cycle of all
      --vcd FILE                  write a waveform
      --work                      show the wire stores of each cycle, and the wires that read what changed
      --init FILE                 the registers' first values, lines such as `count 5`
      --save FILE, --load FILE    save the state at the end, go on from a state that was saved
      --progress                  say how far it has come, on standard error
      --any-order                 say nothing where the result depends on the order
  walbryts compare FILE INPUTS    events, in several orders, against the expressions
  walbryts extract FILE           waits and next-state expressions
      --dot                       the nodes as a graph for Graphviz
  walbryts explain FILE           what each thread does from wait to wait, as statements
  walbryts verilog FILE           the module as Verilog
  walbryts sheet FILE             the module as a sheet, in hexadecimal text
      --names FILE                with run, extract and explain: names, lines such as `r0 count`
      --verilog                   FILE is Verilog text, whatever its name
  walbryts help, --help, -h       these lines
  walbryts --version, -V          which version it is

FILE: Verilog text where its name ends in .v; else a sheet: bytes, or hexadecimal text with blanks,
line ends and # comments; - is standard input.
INPUTS: a line a cycle, the values of inputs 1 up with blanks or a comma between them: decimal,
0x and hexadecimal, bits with x among them (b1x0, 4'b1x0), or x; - alone where the clock is the
only input; # comments.
Status: 0 done; 1 refused, by extraction too, or different; 2 words or files that are wrong.
",
    )
}

// A command, the words that asked for it, and the stream that its module is read from.
#[derive(Clone, Copy)]
struct Task {
    words: Words,
    command: Command,
    source: Stream,
}

impl Task {
    // The word that names the module's file.
    fn index(&self) -> usize {
        options::sheet_of(self.command)
    }

    // What the command does with a module that is read: its sheet is written where the command is `sheet`.
    fn perform(
        &self,
        system: &mut System,
        sheet: &[u8],
        layout: Layout,
        names: &mut [u8; 2560],
    ) -> Result<(), Outcome> {
        if self.words.sheet {
            return showing::print_sheet(system, sheet);
        }
        names::fill(system, options::names_of(self.command), layout, names)?;
        match self.command {
            Command::List(_) => showing::list(system, sheet),
            Command::Check(_) => showing::check(system, sheet, names),
            Command::Run(o) => running::run(system, o, self.source, sheet, layout, names),
            Command::Extract(o) => nets::extract(system, o, sheet, names),
            Command::Compare(o) => comparing::compare(system, o, sheet, layout, names),
            Command::Verilog(index) => showing::print_verilog(system, index, sheet, names),
            Command::Explain(index, _) => {
                showing::explain(system, index, sheet, names, layout.threads)
            }
        }
    }

    // A sheet's bytes, from the file's, which are hexadecimal text or not: refused, or handed to the command.
    fn with_bytes(
        &self,
        system: &mut System,
        sheet: &[u8],
        view: &[u8],
        hex: bool,
    ) -> Result<(), Outcome> {
        let r = sheet::read(sheet);
        if r.number != 0 {
            report::refuse(system, self.index(), sheet, view, hex, r.number, r.place);
            return Err(Outcome::Refused);
        }
        let mut names = [0u8; 2560];
        naming::fill_plain(r.layout.inputs, r.layout.registers, &mut names);
        self.perform(system, sheet, r.layout, &mut names)
    }

    // Hexadecimal text.
    fn with_text(&self, system: &mut System, view: &[u8]) -> Result<(), Outcome> {
        if view.len() >= 65533 {
            report::wrong_with(
                system,
                self.index(),
                b": hexadecimal text of 65,533 bytes or longer\n",
                0,
            );
            return Err(Outcome::Mistaken);
        }
        let mut bytes = [0u8; 8193];
        let d = hextext::decode(view, &mut bytes);
        if d.error != 0 {
            report::wrong_hex(system, self.index(), d.line, d.column, d.error);
            return Err(Outcome::Mistaken);
        }
        let sheet = bytes.get(..d.length).ok_or(Outcome::Mistaken)?;
        self.with_bytes(system, sheet, view, true)
    }

    // A text's sheet, with the names of the text.
    fn with_names(&self, system: &mut System, sheet: &[u8], text: &[u8]) -> Result<(), Outcome> {
        let layout = sheet::read(sheet).layout;
        let mut names = [0u8; 2560];
        naming::fill_plain(layout.inputs, layout.registers, &mut names);
        texts::name(text, &mut names);
        self.perform(system, sheet, layout, &mut names)
    }

    // Verilog text: its sheet, or what is refused of it.
    fn with_verilog(&self, system: &mut System, text: &[u8]) -> Result<(), Outcome> {
        let mut lent = [0u8; 8192];
        let r = verilog_read::read_text(text, &mut lent);
        if r.number != 0 {
            texts::refuse(system, self.index(), text, r.number, r.place);
            return Err(Outcome::Refused);
        }
        let sheet = lent.get(..r.length).ok_or(Outcome::Mistaken)?;
        self.with_names(system, sheet, text)
    }

    // A file's bytes: Verilog text, a sheet, or hexadecimal text.
    fn with_file(&self, system: &mut System, view: &[u8]) -> Result<(), Outcome> {
        if files::is_text(system, self.words.verilog, self.index()) {
            return self.with_verilog(system, view);
        }
        if sources::starts_text(view) {
            report::wrong_with(
                system,
                self.index(),
                b": this looks like Verilog text, which a file's name in .v or --verilog says\n",
                0,
            );
            return Err(Outcome::Mistaken);
        }
        if hextext::is_text(view) {
            return self.with_text(system, view);
        }
        self.with_bytes(system, view, view, false)
    }
}

// A command, from the file of its module on.
fn carry_out(system: &mut System, words: Words, command: Command) -> Result<(), Outcome> {
    let mut buffer = [0u8; 65536];
    let Ok(got) = files::read_whole(system, options::sheet_of(command), &mut buffer) else {
        return Err(Outcome::Mistaken);
    };
    let task = Task {
        words,
        command,
        source: got.stream,
    };
    let view = files::behind_mark(&buffer, got.size).ok_or(Outcome::Mistaken)?;
    task.with_file(system, view)
}

// What the words ask for.
fn answer(system: &mut System, w: Words, r: Request) -> Result<(), Outcome> {
    match r {
        Request::Help => help(system),
        Request::Version => show_word(system, b"walbryts 0.4.0\n"),
        Request::Short(missing) => {
            mistakes::short(system, missing);
            Err(Outcome::Mistaken)
        }
        Request::Wrong(index, fault) => {
            mistakes::wrong(system, index, fault);
            Err(Outcome::Mistaken)
        }
        Request::Asked(c) => carry_out(system, w, c),
    }
}

// What the words ask for. Gives the status.
fn run(system: &mut System, w: Words) -> u8 {
    let r = options::judge(w.options);
    options::status_of(ending::outcome_of(answer(system, w, r)))
}

// The same, with the status told on descriptor 3. Where that is there and can't be reached, the process ends with the status.
fn run_telling(system: &mut System, w: Words) -> ExitCode {
    let told = system.open_status();
    let status = run(system, w);
    let Ok(stream) = told else {
        return ExitCode::from(status);
    };
    if let Some(stream) = stream {
        say::say(system, stream, b"#", usize::from(status), 0);
    }
    ExitCode::SUCCESS
}

// The process itself ends with 0; where the words ask for it, the status is told on descriptor 3.
fn main(rt: HostRuntime) -> ExitCode {
    let mut system = System::new(rt);
    let w = words::asked(&mut system);
    if options::wants_status(w.options) {
        return run_telling(&mut system, w);
    }
    run(&mut system, w);
    ExitCode::SUCCESS
}
