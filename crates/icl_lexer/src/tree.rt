// The tree of an ICL text.
use crate::one_or_more::OneOrMore;
use crate::small_text::SmallText;
use ij_bits::List;
use ij_text::Place;

/// A whole ICL text (IEEE 1687-2014).
#[derive(Drop)]
pub struct Design {
    /// The modules in the order of the text.
    pub modules: List<Module>,
}

/// A `Module`.
#[derive(Drop)]
pub struct Module {
    /// The name, which any word may be.
    pub name: SmallText,
    /// The place of the word `Module`.
    pub at: Place,
    /// The items in the order of the text.
    pub items: List<Item>,
}

/// An item of a module.
#[derive(Drop)]
pub struct Item {
    /// The place of the item's first word.
    pub at: Place,
    /// The name after that word.
    pub name: SmallText,
    /// What the item declares.
    pub what: What,
}

/// What an item declares. Attributes of a body and of an interface are read and not kept.
#[derive(Drop)]
pub enum What {
    /// A port of a module. Scan ports have no range.
    Port {
        kind: PortKind,
        range: Option<Range>,
        props: List<Prop>,
    },
    /// A `ScanRegister`, whose properties have a `ScanInSource`.
    Register {
        range: Option<Range>,
        props: List<Prop>,
    },
    /// A `ScanMux`, with the signals that select a row, and one row or more.
    Mux {
        select: List<Sig>,
        rows: List<MuxRow>,
    },
    /// An `Instance` of a module.
    Child {
        module: SmallText,
        binds: List<Bind>,
    },
    /// An `Alias` of some signals.
    Alias {
        range: Option<Range>,
        sigs: List<Sig>,
        props: List<Prop>,
    },
    /// An `Enum`.
    Words {
        words: List<EnumWord>,
    },
    /// A `Parameter`, or a `LocalParameter`.
    Parameter {
        local: bool,
        value: Expr,
    },
    /// A `ScanInterface`, with the names of its ports.
    Interface {
        ports: List<SmallText>,
    },
    /// An `AccessLink`, with its `BSDLEntity` and its instructions.
    Link {
        kind: LinkKind,
        entity: SmallText,
        instrs: List<LinkInstr>,
    },
    /// An `Attribute` of the module.
    Attribute {
        value: Option<Expr>,
    },
}

/// The kinds of ports, each named as its word in ICL.
#[derive(Clone, Copy, Debug, PartialEq, Eq)]
pub enum PortKind {
    ScanInPort,
    ScanOutPort,
    DataInPort,
    DataOutPort,
    SelectPort,
    CaptureEnPort,
    ShiftEnPort,
    UpdateEnPort,
    ResetPort,
    TCKPort,
    TMSPort,
    TRSTPort,
    ClockPort,
    ToSelectPort,
    ToCaptureEnPort,
    ToShiftEnPort,
    ToUpdateEnPort,
    ToResetPort,
    ToTCKPort,
    ToTMSPort,
    ToTRSTPort,
    ToClockPort,
    ToIRSelectPort,
}

/// A property in the body of a port, a register or an alias. Each is at most once in a body.
#[derive(Drop)]
pub enum Prop {
    /// The source of a port: one signal of a `ScanOutPort`, one or more of another port, the leftmost first.
    Source(List<Sig>),
    /// The clock edge after which a `ScanOutPort` changes.
    LaunchEdge(SmallText),
    /// The numbers of a concatenation, the leftmost first.
    DefaultLoadValue(OneOrMore<Expr>),
    /// The name of an `Enum`.
    RefEnum(SmallText),
    /// The level at which a control port is active.
    ActivePolarity(u32),
    /// Where a scan register shifts in from.
    ScanInSource(Sig),
    /// What a scan register captures: signals, the leftmost first.
    CaptureSource(List<Sig>),
    /// The numbers of a concatenation, the leftmost first.
    ResetValue(OneOrMore<Expr>),
    /// The bits of an alias are accessed together.
    AccessTogether,
}

/// `[left]` or `[left:right]`, at the place of its `[`.
#[derive(Drop)]
pub struct Range {
    /// The place of the `[`.
    pub at: Place,
    /// What is between the brackets.
    pub ends: Box<Ends>,
}

/// The indices of a range.
#[derive(Drop)]
pub struct Ends {
    /// The index on the left, farthest from TDO in a scan register.
    pub left: Expr,
    /// The index on the right, nearest to TDO in a scan register; none in a range of one index.
    pub right: Option<Expr>,
}

/// A signal at the place of its first token, inverted by a `~`.
#[derive(Drop)]
pub struct Sig {
    /// The place of its first token.
    pub at: Place,
    /// Whether a `~` comes before.
    pub inverted: bool,
    /// What follows the `~`.
    pub what: SigWhat,
}

/// What a signal is.
#[derive(Drop)]
pub enum SigWhat {
    /// A number: a decimal, a sized number or a parameter.
    Value(Expr),
    /// Names with dots between them, one or more, and a range.
    Named {
        path: OneOrMore<SmallText>,
        range: Option<Range>,
    },
}

/// A row of a `ScanMux`: the values that select it, each the numbers of a concatenation, and its source.
#[derive(Drop)]
pub struct MuxRow {
    /// The values, one or more, with `|` between them.
    pub values: OneOrMore<OneOrMore<Expr>>,
    /// What the multiplexer passes on at these values.
    pub source: Sig,
}

/// What an `Instance` binds.
#[derive(Drop)]
pub enum Bind {
    /// An `InputPort`, at the place of this word.
    Port {
        at: Place,
        name: SmallText,
        range: Option<Range>,
        sigs: List<Sig>,
    },
    /// A `Parameter`, at the place of this word.
    Parameter {
        at: Place,
        name: SmallText,
        value: Expr,
    },
    /// An `Attribute` of the instance.
    Attribute {
        name: SmallText,
        value: Option<Expr>,
    },
}

/// A word of an `Enum`, with the numbers of a concatenation.
#[derive(Drop)]
pub struct EnumWord {
    /// The word.
    pub name: SmallText,
    /// What it stands for.
    pub value: OneOrMore<Expr>,
}

/// An instruction of an `AccessLink`: its name, and the instance and the scan interface that it selects.
#[derive(Drop)]
pub struct LinkInstr {
    /// The instruction, which the entity's description has.
    pub name: SmallText,
    /// The instance.
    pub cell: SmallText,
    /// Its scan interface.
    pub interface: SmallText,
}

/// The access standard of an `AccessLink`.
#[derive(Clone, Copy, Debug, PartialEq, Eq)]
pub enum LinkKind {
    /// `STD_1149_1_2001`.
    Std2001,
    /// `STD_1149_1_2013`.
    Std2013,
}

/// An expression.
#[derive(Drop)]
pub enum Expr {
    /// A decimal number, of at most 4,294,967,295.
    Decimal(u32),
    /// A sized number: the bytes of its token.
    Sized(SmallText),
    /// A text: the bytes between its quotes, as they stand.
    Quoted(SmallText),
    /// A parameter: its place, and its name without the `$`.
    Param(Place, SmallText),
    /// An operator at its place, with its left and right operands.
    Op(Place, Sign, Box<Expr>, Box<Expr>),
}

/// An operator.
#[derive(Clone, Copy, Debug, PartialEq, Eq)]
pub enum Sign {
    /// `+`
    Plus,
    /// `-`
    Minus,
    /// `*`
    Times,
    /// `/`
    Over,
    /// `%`, the rest of a division.
    Rest,
}
