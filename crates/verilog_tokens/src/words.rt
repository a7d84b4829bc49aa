// Keywords, terminals and signs, each list as a table of rows.
ghost use Rattle.std.specs.Prelude.{◌≡◌, length};
ghost use Rattle.verilog_tokens.specs.Words.{is_keyword, signs, first_of};
ghost use Rattle.verilog_tokens.specs.Tokens.{word_token};
ghost use Rattle.verilog_tokens.specs.Table.{terminals, number_from, kind_of};

use crate::Kind;
use crate::rows::{first_of, place_in};

// Is the word one of Annex B's?
fn is_keyword(word: &[u8]) -> bool
    ensures { result ≡ is_keyword word.now }
{
    let n = place_in(
        b"always\nand\nassign\nautomatic\nbegin\nbuf\nbufif0\nbufif1\ncase\ncasex\ncasez\ncell\ncmos\nconfig\ndeassign\n\
          default\ndefparam\ndesign\ndisable\nedge\nelse\nend\nendcase\nendconfig\nendfunction\nendgenerate\nendmodule\n\
          endprimitive\nendspecify\nendtable\nendtask\nevent\nfor\nforce\nforever\nfork\nfunction\ngenerate\ngenvar\n\
          highz0\nhighz1\nif\nifnone\nincdir\ninclude\ninitial\ninout\ninput\ninstance\ninteger\njoin\nlarge\nliblist\n\
          library\nlocalparam\nmacromodule\nmedium\nmodule\nnand\nnegedge\nnmos\nnor\nnoshowcancelled\nnot\nnotif0\n\
          notif1\nor\noutput\nparameter\npmos\nposedge\nprimitive\npull0\npull1\npulldown\npullup\npulsestyle_onevent\n\
          pulsestyle_ondetect\nrcmos\nreal\nrealtime\nreg\nrelease\nrepeat\nrnmos\nrpmos\nrtran\nrtranif0\nrtranif1\n\
          scalared\nshowcancelled\nsigned\nsmall\nspecify\nspecparam\nstrong0\nstrong1\nsupply0\nsupply1\ntable\ntask\n\
          time\ntran\ntranif0\ntranif1\ntri\ntri0\ntri1\ntriand\ntrior\ntrireg\nunsigned\nuse\nuwire\nvectored\nwait\n\
          wand\nweak0\nweak1\nwhile\nwire\nwor\nxnor\nxor\n",
        word,
    );
    n < 124
}

// The kind of a keyword or sign: its number among the terminals, or that of another.
pub fn terminal_kind(word: &[u8]) -> u8
    ensures { result ≡ number_from 1 terminals word.now }
{
    let n = place_in(
        b"module\nendmodule\ninput\nreg\nwire\nassign\nalways\nbegin\nend\nif\nelse\ncase\nendcase\ndefault\nwhile\n\
          forever\nposedge\nnegedge\nor\n(\n)\n[\n]\n:\n;\n,\n@\n=\n==\n<=\n<\n?\n~\n!\n&\n|\n^\n+\n-\n",
        word,
    );
    if n < 39 {
        return n as u8 + 1;
    }
    Kind::Reserved as u8
}

// A word's kind: a keyword's number or a name.
pub fn word_kind(word: &[u8]) -> u8
    ensures { result ≡ kind_of (word_token 0 word.now) }
{
    if is_keyword(word) {
        return terminal_kind(word);
    }
    Kind::Name as u8
}

// The length of the sign that a text opens with; 0 for none.
pub fn sign_size(text: &[u8]) -> usize
    ensures { result ≡ length (first_of signs text.now) }
{
    first_of(
        b"==\n<=\n^~\n(\n)\n[\n]\n:\n;\n,\n@\n=\n<\n?\n~\n!\n&\n|\n^\n+\n-\n",
        text,
    )
}
