// The words that the program is called with.
ghost use Rattle.std.specs.Prelude.{◌≡◌, map, option_map};
ghost use Rattle.std.specs.String.{string_bytes};
ghost use Rattle.ijtag_tools.specs.Command.{command_in, drawn, explain_of, format_named, how_named};
ghost use Rattle.ijtag_tools.specs.Command.{kind_named, list_of, picture_format_named, picture_of};
ghost use Rattle.ijtag_tools.specs.Command.{tighten_of, wave_of, where_of, window_named};
ghost use Rattle.ijtag_tools.specs.Words.{seen_command};
ghost use Rattle.ijtag_work.specs.Words.{seen_network};

use ijtag_work::{NetworkWords, PlayWords, ProcedureWords, read_number};
use net_list::ListFormat;
use net_wave::{WaveKind, Window};
use tight_planner::How;

/// The words of `list FORMAT ICL DEVICE TOP`.
#[derive(Clone, Copy)]
pub struct ListWords<'a> {
    /// How it is printed.
    pub format: ListFormat,
    /// The network.
    pub network: NetworkWords<'a>,
}

/// The words of `explain SVF ICL DEVICE TABLES TOP NEW`.
#[derive(Clone, Copy)]
pub struct ExplainWords<'a> {
    /// What is explained.
    pub play: PlayWords<'a>,
    /// The file that is written: the same SVF text, with notes.
    pub new_svf: &'a str,
}

/// The words of `where SVF ICL DEVICE TABLES TOP SCAN BIT`.
#[derive(Clone, Copy)]
pub struct WhereWords<'a> {
    /// What is played.
    pub play: PlayWords<'a>,
    /// The scan, SIR or SDR, counted from 1.
    pub scan: u64,
    /// The position in it; 0 is the first at TDO.
    pub bit: u64,
}

/// How a network is drawn.
#[derive(Clone, Copy)]
pub enum PictureFormat {
    /// A drawing (Scalable Vector Graphics).
    Svg,
    /// A graph, in the language of Graphviz.
    Dot,
}

/// The words of `picture svg ICL DEVICE TOP NEW`.
#[derive(Clone, Copy)]
pub struct PictureWords<'a> {
    /// The network.
    pub network: NetworkWords<'a>,
    /// The file that is written.
    pub picture: &'a str,
}

/// The words of `picture dot ICL DEVICE TOP NEW`.
#[derive(Clone, Copy)]
pub struct GraphWords<'a> {
    /// The network.
    pub network: NetworkWords<'a>,
    /// The file that is written.
    pub graph: &'a str,
}

/// The words of `picture FORMAT ICL DEVICE TOP NEW SVF TABLES SCAN`.
#[derive(Clone, Copy)]
pub struct PictureAtWords<'a> {
    /// How the network is drawn.
    pub format: PictureFormat,
    /// What is played.
    pub play: PlayWords<'a>,
    /// The file that is written.
    pub picture: &'a str,
    /// The scan before which the network is drawn, SIR or SDR, counted from 1.
    pub scan: u64,
}

/// The words of `wave KIND SVF ICL DEVICE TABLES TOP NEW` and
/// `wave KIND SVF ICL DEVICE TABLES TOP NEW FROM COUNT`.
#[derive(Clone, Copy)]
pub struct WaveWords<'a> {
    /// Which variables there are.
    pub kind: WaveKind,
    /// What is played.
    pub play: PlayWords<'a>,
    /// The file that is written (IEEE 1364-2005, clause 18: value change dump).
    pub waves: &'a str,
    /// The clocks that are written; all where there is none.
    pub window: Option<Window>,
}

/// The words of `tighten HOW ICL PDL DEVICE TOP PROC NEW`.
#[derive(Clone, Copy)]
pub struct TightenWords<'a> {
    /// How it is planned.
    pub how: How,
    /// The procedure.
    pub procedure: ProcedureWords<'a>,
    /// The file that is written (Serial Vector Format, revision E).
    pub svf: &'a str,
}

/// The words of a command.
#[derive(Clone, Copy)]
pub enum ToolWords<'a> {
    List(ListWords<'a>),
    Explain(ExplainWords<'a>),
    Where(WhereWords<'a>),
    Picture(PictureWords<'a>),
    Graph(GraphWords<'a>),
    PictureAt(PictureAtWords<'a>),
    Tighten(TightenWords<'a>),
    Wave(WaveWords<'a>),
}

/// The format of a word, where it names one.
fn format_of(word: &str) -> Option<ListFormat>
    ensures { result ≡ format_named word.now }
{
    if word == "text" {
        Some(ListFormat::Text)
    } else if word == "json" {
        Some(ListFormat::Json)
    } else {
        None
    }
}

/// The format of a picture of a word, where it names one.
fn picture_format_of(word: &str) -> Option<PictureFormat>
    ensures { result ≡ picture_format_named word.now }
{
    if word == "svg" {
        Some(PictureFormat::Svg)
    } else if word == "dot" {
        Some(PictureFormat::Dot)
    } else {
        None
    }
}

/// The way of planning of a word, where it names one.
fn plan_mode_of(word: &str) -> Option<How>
    ensures { result ≡ how_named word.now }
{
    if word == "full" {
        Some(How::Full)
    } else if word == "lean" {
        Some(How::Lean)
    } else if word == "late" {
        Some(How::Late)
    } else {
        None
    }
}

/// Which variables a word asks for, where it names some.
fn kind_of(word: &str) -> Option<WaveKind>
    ensures { result ≡ kind_named word.now }
{
    if word == "pins" {
        Some(WaveKind::Pins)
    } else if word == "state" {
        Some(WaveKind::State)
    } else if word == "all" {
        Some(WaveKind::All)
    } else {
        None
    }
}

/// The clocks that some words ask for: all where there are none, or those that two numbers say.
fn window_of(words: &[String]) -> Option<Option<Window>>
    ensures { result ≡ window_named (map string_bytes words.now) }
{
    match words {
        [] => Some(None),
        [from, count] => {
            let from = read_number(from)?;
            let count = read_number(count)?;
            Some(Some(Window { from, count }))
        }
        [_] | [_, _, _, ..] => None,
    }
}

/// The command `list` of the words after its name.
fn read_list<'a>(words: &'a [String]) -> Option<ToolWords<'a>>
    ensures { option_map seen_command result ≡ list_of (map string_bytes words.now) }
{
    let [format, icl, device, top] = words else {
        return None;
    };
    let format = format_of(format)?;
    let network = NetworkWords { icl, device, top };
    Some(ToolWords::List(ListWords { format, network }))
}

/// The command `explain` of the words after its name.
fn read_explain<'a>(words: &'a [String]) -> Option<ToolWords<'a>>
    ensures { option_map seen_command result ≡ explain_of (map string_bytes words.now) }
{
    let [svf, icl, device, tables, top, new_svf] = words else {
        return None;
    };
    Some(ToolWords::Explain(ExplainWords {
        play: PlayWords {
            svf,
            network: NetworkWords { icl, device, top },
            tables,
        },
        new_svf,
    }))
}

/// The command `where` of the words after its name.
fn read_where<'a>(words: &'a [String]) -> Option<ToolWords<'a>>
    ensures { option_map seen_command result ≡ where_of (map string_bytes words.now) }
{
    let [svf, icl, device, tables, top, scan, bit] = words else {
        return None;
    };
    let scan = read_number(scan)?;
    let bit = read_number(bit)?;
    Some(ToolWords::Where(WhereWords {
        play: PlayWords {
            svf,
            network: NetworkWords { icl, device, top },
            tables,
        },
        scan,
        bit,
    }))
}

/// The command `picture` of power-up.
fn picture_at_power_up<'a>(
    format: PictureFormat,
    network: NetworkWords<'a>,
    new: &'a str,
) -> ToolWords<'a>
    ensures { seen_command result
        ≡ drawn (record { network = seen_network network.entry; new = new.now }) format }
{
    match format {
        PictureFormat::Svg => ToolWords::Picture(PictureWords {
            network,
            picture: new,
        }),
        PictureFormat::Dot => ToolWords::Graph(GraphWords {
            network,
            graph: new,
        }),
    }
}

/// The command `picture` of the words after its name.
fn read_picture<'a>(words: &'a [String]) -> Option<ToolWords<'a>>
    ensures { option_map seen_command result ≡ picture_of (map string_bytes words.now) }
{
    let [format, icl, device, top, picture, rest @ ..] = words else {
        return None;
    };
    let format = picture_format_of(format)?;
    let network = NetworkWords { icl, device, top };
    match rest {
        [] => Some(picture_at_power_up(format, network, picture)),
        [svf, tables, scan] => {
            let scan = read_number(scan)?;
            let play = PlayWords {
                svf,
                network,
                tables,
            };
            Some(ToolWords::PictureAt(PictureAtWords {
                format,
                play,
                picture,
                scan,
            }))
        }
        [_] | [_, _] | [_, _, _, _, ..] => None,
    }
}

/// The command `tighten` of the words after its name.
fn read_tighten<'a>(words: &'a [String]) -> Option<ToolWords<'a>>
    ensures { option_map seen_command result ≡ tighten_of (map string_bytes words.now) }
{
    let [how, icl, pdl, device, top, name, svf] = words else {
        return None;
    };
    let how = plan_mode_of(how)?;
    Some(ToolWords::Tighten(TightenWords {
        how,
        procedure: ProcedureWords {
            network: NetworkWords { icl, device, top },
            pdl,
            name,
        },
        svf,
    }))
}

/// The command `wave` of the words after its name.
fn read_wave<'a>(words: &'a [String]) -> Option<ToolWords<'a>>
    ensures { option_map seen_command result ≡ wave_of (map string_bytes words.now) }
{
    let [kind, svf, icl, device, tables, top, waves, clocks @ ..] = words else {
        return None;
    };
    let kind = kind_of(kind)?;
    let window = window_of(clocks)?;
    Some(ToolWords::Wave(WaveWords {
        kind,
        play: PlayWords {
            svf,
            network: NetworkWords { icl, device, top },
            tables,
        },
        waves,
        window,
    }))
}

/// The command of the words, `None` where they are no command. It takes no memory.
pub fn read_words(words: &Vec<String>) -> Option<ToolWords<'_>>
    ensures { option_map seen_command result ≡ command_in words.now.items }
{
    let [name, words @ ..] = words.as_slice() else {
        return None;
    };
    let name = name.as_str();
    if name == "list" {
        read_list(words)
    } else if name == "explain" {
        read_explain(words)
    } else if name == "where" {
        read_where(words)
    } else if name == "picture" {
        read_picture(words)
    } else if name == "tighten" {
        read_tighten(words)
    } else if name == "wave" {
        read_wave(words)
    } else {
        None
    }
}
