// `extract`: the next-state expressions of a sheet, as text or as a graph.
use crate::files::{show, show_filled, show_word};
use crate::report;
use crate::showing::{extracted, find_waits};
use crate::system::System;
use options::{ExtractOptions, Outcome};
use sheet::Layout;

// The expressions of a sheet: the nodes, how many there are and how often each is used, and the names of the variables.
#[derive(Clone, Copy)]
struct Net<'a> {
    nodes: &'a [u16; 16384],
    count: usize,
    uses: &'a [u8; 4096],
    names: &'a [u8; 2560],
}

impl Net<'_> {
    // All nodes: of a graph, or a line for each that has one.
    fn print_nodes(
        &self,
        system: &mut System,
        dot: bool,
        text: &mut [u8; 65536],
    ) -> Result<(), Outcome> {
        for n in 0..self.count.min(4096) as u16 {
            let pos = if dot {
                netlist::print_dot_node(self.nodes, self.names, n, text, 0)
            } else {
                overview::put_shown_node(self.nodes, self.uses, self.names, n, text, 0)
            };
            show(system, text, pos)?;
        }
        Ok(())
    }

    // The rows, 33 entries each, each with its head where it is the first.
    fn print_rows(
        &self,
        system: &mut System,
        rows: &[u16; 1056],
        layout: Layout,
        heads: &[usize; 32],
        waits: usize,
        text: &mut [u8; 65536],
    ) -> Result<(), Outcome> {
        for e in 0..33 * waits.min(32) {
            let p = overview::put_row_head(heads, e, text, 0);
            let q = overview::put_shown_entry(
                self.nodes, self.uses, self.names, layout, e, rows[e], text, p,
            );
            show(system, text, q)?;
        }
        Ok(())
    }
}

// The nodes as a graph.
fn graph(system: &mut System, nodes: &[u16; 16384], names: &[u8; 2560]) -> Result<(), Outcome> {
    let mut text = [0u8; 65536];
    let net = Net {
        nodes,
        count: netlist::node_count(nodes),
        uses: &[0u8; 4096],
        names,
    };
    show_word(system, b"digraph walbryts {\n")?;
    net.print_nodes(system, true, &mut text)?;
    show_word(system, b"}\n")
}

// The counts, the shared nodes and the rows.
fn print(
    system: &mut System,
    sheet: &[u8],
    nodes: &[u16; 16384],
    rows: &[u16; 1056],
    names: &[u8; 2560],
) -> Result<(), Outcome> {
    let layout = sheet::read(sheet).layout;
    let mut text = [0u8; 65536];
    let mut uses = [0u8; 4096];
    let mut heads = [0usize; 32];
    let count = netlist::node_count(nodes);
    let waits = find_waits(sheet, layout, &mut heads);
    show_filled(system, |text| overview::put_sizes(count, waits, text, 0))?;
    netlist::fill_uses(nodes, rows, count, waits, &mut uses);
    let net = Net {
        nodes,
        count,
        uses: &uses,
        names,
    };
    net.print_nodes(system, false, &mut text)?;
    net.print_rows(system, rows, layout, &heads, waits, &mut text)
}

// `extract`: a sheet that is read.
pub fn extract(
    system: &mut System,
    o: ExtractOptions,
    sheet: &[u8],
    names: &[u8; 2560],
) -> Result<(), Outcome> {
    let mut nodes = [0u16; 16384];
    let mut rows = [0u16; 1056];
    if !extracted(sheet, &mut nodes, &mut rows) {
        report::refuse_extraction(system, o.sheet, sheet, names);
        return Err(Outcome::Refused);
    }
    if o.dot {
        return graph(system, &nodes, names);
    }
    print(system, sheet, &nodes, &rows, names)
}
