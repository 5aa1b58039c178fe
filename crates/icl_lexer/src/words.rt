// The words by which the parts of an ICL text are told apart, and the limits that bar a token.
use crate::tree::PortKind;

/// Why a token that the grammar wants is barred.
#[derive(Clone, Copy, Debug, PartialEq, Eq)]
pub enum Limit {
    /// It would be the 65th parenthesis inside one another, or the 257th operator of one expression.
    OfExpression,
}

/// The word by which an item of a module begins.
#[derive(Clone, Copy, Debug, PartialEq, Eq)]
pub enum ItemKeyword {
    /// The word of a kind of port.
    OfPort(PortKind),
    /// `ScanRegister`
    OfRegister,
    /// `ScanMux`
    OfMux,
    /// `Instance`
    OfChild,
    /// `Alias`
    OfAlias,
    /// `Enum`
    OfEnum,
    /// `Parameter`, or `LocalParameter` where it is local.
    OfParameter(bool),
    /// `Attribute`
    OfAttribute,
    /// `ScanInterface`
    OfInterface,
    /// `AccessLink`
    OfLink,
}

/// What has a body.
#[derive(Clone, Copy, Debug, PartialEq, Eq)]
pub enum BodyKind {
    /// A `ScanInPort`.
    ScanIn,
    /// A `ScanOutPort`.
    ScanOut,
    /// A `DataInPort`.
    DataIn,
    /// A `DataOutPort`.
    DataOut,
    /// A port that is neither a scan port nor a data port.
    Control,
    /// A `ScanRegister`.
    Register,
    /// An `Alias`.
    Alias,
}

/// The word by which a property begins, each named as it is written.
#[derive(Clone, Copy, Debug, PartialEq, Eq)]
pub enum PropKeyword {
    Source,
    LaunchEdge,
    DefaultLoadValue,
    RefEnum,
    ActivePolarity,
    ScanInSource,
    CaptureSource,
    ResetValue,
    AccessTogether,
    Attribute,
}

/// The word by which a binding of an instance begins.
#[derive(Clone, Copy, Debug, PartialEq, Eq)]
pub enum BindKeyword {
    /// `InputPort`
    BindsPort,
    /// `Parameter`
    BindsParameter,
    /// `Attribute`
    BindsAttribute,
}

/// The word by which a member of a scan interface begins.
#[derive(Clone, Copy, Debug, PartialEq, Eq)]
pub enum MemberKeyword {
    /// `Port`
    MemberPort,
    /// `Attribute`
    MemberAttribute,
}
