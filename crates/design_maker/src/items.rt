// The items of a module in the making.
ghost use Rattle.std.specs.Prelude.{◌≡◌, ◌≤◌, [], ◌∷◌, length, map, Some, None, OnOk, IfOk};
ghost use Rattle.ij_bits.specs.Room.{seen_list};
ghost use Rattle.icl_lexer.specs.Values.{ASized, APort};
ghost use Rattle.icl_lexer.specs.Views.{seen_bind, seen_expr, seen_few, seen_module, seen_prop, seen_row};
ghost use Rattle.icl_lexer.specs.Views.{seen_sig, seen_what};
ghost use Rattle.design_maker.specs.Parts.{HasAdded, attribute, bound, bound_width, instance, interface};
ghost use Rattle.design_maker.specs.Parts.{item, module_of, mux_row, port, seen_items, signal, sourced};
ghost use Rattle.design_maker.specs.Parts.{wide_port, width_parameter};

use crate::signals::{NOWHERE, names_from_bytes, one, signal, whole_width};
use icl_lexer::{
    Bind, Expr, Item, Module, MuxRow, OneOrMore, PortKind, Prop, Sig, SmallText, What,
};
use ij_bits::{List, OutOfMemory};
use std::alloc::Global;

/// The items of a module in the making, the first one first.
#[derive(Drop)]
pub(crate) struct Items {
    /// Where memory is taken.
    pub alloc: Global,
    /// The items.
    pub items: List<Item>,
}

impl Items {
    /// No items yet.
    #[tactic(auto, unfolding(crate::specs::Parts::HasAdded))]
    pub fn new(alloc: Global) -> Self
        ensures { seen_items result ≡ [] }
    {
        Items {
            alloc,
            items: List::new(alloc),
        }
    }

    /// An item.
    #[tactic(auto, unfolding(crate::specs::Parts::HasAdded))]
    pub fn add(&mut self, name: &[u8], what: What) -> Result<(), OutOfMemory>
        ensures { OnOk result (HasAdded self.old self.new (item name.now (seen_what what) ∷ [])) }
    {
        let Ok(name) = SmallText::of(self.alloc, name) else {
            drop(what);
            return Err(OutOfMemory);
        };
        self.items.push(Item {
            at: NOWHERE,
            name,
            what,
        })
    }

    /// A port without properties.
    #[tactic(auto, unfolding(crate::specs::Parts::HasAdded))]
    pub fn port(&mut self, kind: PortKind, name: &[u8]) -> Result<(), OutOfMemory>
        ensures { OnOk result (HasAdded self.old self.new (port kind name.now ∷ [])) }
    {
        let props = List::new(self.alloc);
        self.add(
            name,
            What::Port {
                kind,
                range: None,
                props,
            },
        )
    }

    /// A port with one property.
    #[tactic(auto, unfolding(crate::specs::Parts::HasAdded))]
    pub fn port_with(&mut self, kind: PortKind, name: &[u8], prop: Prop) -> Result<(), OutOfMemory>
        ensures { OnOk result
            (HasAdded self.old self.new (item name.now (APort kind None (seen_prop prop ∷ [])) ∷ [])) }
    {
        let props = one(self.alloc, prop)?;
        self.add(
            name,
            What::Port {
                kind,
                range: None,
                props,
            },
        )
    }

    /// A port that a signal is the source of.
    #[tactic(auto, unfolding(crate::specs::Parts::HasAdded))]
    pub fn sourced(&mut self, kind: PortKind, name: &[u8], source: Sig) -> Result<(), OutOfMemory>
        ensures { OnOk result (HasAdded self.old self.new (sourced kind name.now (seen_sig source) ∷ [])) }
    {
        let sigs = one(self.alloc, source)?;
        self.port_with(kind, name, Prop::Source(sigs))
    }

    /// A port of `W` bits.
    #[tactic(auto, unfolding(crate::specs::Parts::HasAdded))]
    pub fn wide_port(&mut self, kind: PortKind, name: &[u8]) -> Result<(), OutOfMemory>
        ensures { OnOk result (HasAdded self.old self.new (wide_port kind name.now ∷ [])) }
    {
        let range = Some(whole_width(self.alloc)?);
        let props = List::new(self.alloc);
        self.add(name, What::Port { kind, range, props })
    }

    /// A scan interface with these ports.
    #[tactic(auto, unfolding(crate::specs::Parts::HasAdded))]
    pub fn interface(&mut self, name: &[u8], ports: &[&[u8]]) -> Result<(), OutOfMemory>
        ensures { OnOk result
            (HasAdded self.old self.new (interface name.now (map (λ word. word.now) ports.now) ∷ [])) }
    {
        let ports = names_from_bytes(self.alloc, ports)?;
        self.add(name, What::Interface { ports })
    }

    /// The parameter `W`, of 8.
    #[tactic(auto, unfolding(crate::specs::Parts::HasAdded))]
    pub fn width_parameter(&mut self) -> Result<(), OutOfMemory>
        ensures { OnOk result (HasAdded self.old self.new (width_parameter ∷ [])) }
    {
        self.add(
            b"W",
            What::Parameter {
                local: false,
                value: Expr::Decimal(8),
            },
        )
    }

    /// An attribute that is a text.
    #[tactic(auto, unfolding(crate::specs::Parts::HasAdded))]
    pub fn attribute(&mut self, name: &[u8], text: &[u8]) -> Result<(), OutOfMemory>
        ensures { OnOk result (HasAdded self.old self.new (attribute name.now text.now ∷ [])) }
    {
        let value = Some(Expr::Quoted(SmallText::of(self.alloc, text)?));
        self.add(name, What::Attribute { value })
    }

    /// An instance of a module with these bindings.
    #[tactic(auto, unfolding(crate::specs::Parts::HasAdded))]
    pub fn instance(
        &mut self,
        name: &[u8],
        of_module: &[u8],
        binds: List<Bind>,
    ) -> Result<(), OutOfMemory>
        ensures { OnOk result
            (HasAdded self.old self.new (instance name.now of_module.now (seen_list seen_bind binds) ∷ [])) }
    {
        let module = SmallText::of(self.alloc, of_module)?;
        self.add(name, What::Child { module, binds })
    }

    /// The module of this name that has these items.
    #[tactic(auto, unfolding(crate::specs::Parts::HasAdded))]
    pub fn into_module(self, name: &[u8]) -> Result<Module, OutOfMemory>
        ensures { IfOk result (λ m. seen_module m ≡ module_of name.now (seen_items self)) }
    {
        Ok(Module {
            name: SmallText::of(self.alloc, name)?,
            at: NOWHERE,
            items: self.items,
        })
    }
}

/// A list of one signal.
fn one_signal(alloc: Global, path: &[&[u8]]) -> Result<List<Sig>, OutOfMemory>
    requires { 1 ≤ length path.now }
    ensures { IfOk result (λ sigs. seen_list seen_sig sigs ≡ signal (map (λ word. word.now) path.now) ∷ []) }
{
    one(alloc, signal(alloc, path)?)
}

/// An input port that is bound to a signal.
pub(crate) fn bound(alloc: Global, name: &[u8], path: &[&[u8]]) -> Result<Bind, OutOfMemory>
    requires { 1 ≤ length path.now }
    ensures { IfOk result (λ bind. seen_bind bind ≡ bound name.now (map (λ word. word.now) path.now)) }
{
    let name = SmallText::of(alloc, name)?;
    let Ok(sigs) = one_signal(alloc, path) else {
        drop(name);
        return Err(OutOfMemory);
    };
    Ok(Bind::Port {
        at: NOWHERE,
        name,
        range: None,
        sigs,
    })
}

/// The parameter `W` that is bound to a value.
pub(crate) fn bound_width(alloc: Global, value: Expr) -> Result<Bind, OutOfMemory>
    ensures { IfOk result (λ bind. seen_bind bind ≡ bound_width (seen_expr value)) }
{
    let Ok(name) = SmallText::of(alloc, b"W") else {
        drop(value);
        return Err(OutOfMemory);
    };
    Ok(Bind::Parameter {
        at: NOWHERE,
        name,
        value,
    })
}

/// A sized number, as the one of a concatenation.
pub(crate) fn sized_number(alloc: Global, text: &[u8]) -> Result<OneOrMore<Expr>, OutOfMemory>
    ensures { IfOk result (λ value. seen_few seen_expr value ≡ ASized text.now ∷ []) }
{
    Ok(OneOrMore::one(Expr::Sized(SmallText::of(alloc, text)?)))
}

/// A row of a multiplexer that one number selects.
pub(crate) fn mux_row(alloc: Global, value: &[u8], source: &[u8]) -> Result<MuxRow, OutOfMemory>
    ensures { IfOk result (λ row. seen_row row ≡ mux_row value.now source.now) }
{
    let source = signal(alloc, &[source])?;
    let Ok(value) = sized_number(alloc, value) else {
        drop(source);
        return Err(OutOfMemory);
    };
    Ok(MuxRow {
        values: OneOrMore::one(value),
        source,
    })
}
