// The declarations of a wave.
ghost use Rattle.std.specs.Prelude.{◌≡◌, ◌<◌, ◌-◌, ◌^◌, ◌++◌, map, OnOk, All};
ghost use Rattle.instruments.specs.Models.{IsModel};
ghost use Rattle.instruments.specs.Seen.{seen_model};
ghost use Rattle.net_graph.specs.Nets.{IsNet};
ghost use Rattle.net_wave.specs.Header as header;
ghost use Rattle.net_wave.specs.Vars as vars;

use crate::codes::add_code;
use crate::names::{add_scope_name, add_var_name};
use crate::shapes::{Range, var_shape};
use crate::texts::{add, add_words};
use crate::var::{Item, Scope, Var, is_pin};
use ij_bits::{List, OutOfMemory};
use ij_io::{SureSink, Word};
use instruments::Model;
use net_graph::{Device, Net};

/// How the line of a variable begins.
fn kind_text(pin: bool) -> &'static [u8]
    ensures { result.now ≡ header.kind_text pin }
{
    if pin { b"$var wire " } else { b"$var reg " }
}

/// Adds the range of a variable, if it has one.
#[tactic(auto, unfolding(ij_io::specs::Words::words_text))]
fn add_range(range: Option<Range>, piece: &mut SureSink) -> Result<(), OutOfMemory>
    ensures { OnOk result (piece.new ≡ piece.old ++ header.range_text range) }
{
    match range {
        None => add(b"", piece),
        Some(range) => add_words(
            &[
                Word::Text(b" ["),
                Word::Number(u64::from(range.left)),
                Word::Text(b":"),
                Word::Number(u64::from(range.right)),
                Word::Text(b"]"),
            ],
            piece,
        ),
    }
}

/// Adds what comes before the code of a variable.
#[tactic(auto, unfolding(ij_io::specs::Words::words_text))]
fn add_var_type_and_width(pin: bool, width: u32, piece: &mut SureSink) -> Result<(), OutOfMemory>
    ensures { OnOk result (piece.new ≡ piece.old ++ header.front_text pin width) }
{
    add_words(
        &[
            Word::Text(kind_text(pin)),
            Word::Number(u64::from(width)),
            Word::Text(b" "),
        ],
        piece,
    )
}

/// Adds the line of a variable, by its number.
fn add_var(
    net: &Net,
    device: &Device,
    models: &List<Model>,
    number: u64,
    var: Var,
    piece: &mut SureSink,
) -> Result<(), OutOfMemory>
    requires well_formed { IsNet net.now }
    requires models { All (λ m. IsModel (seen_model m)) models.now.items }
    requires there { vars.IsVar net.now (map seen_model models.now.items) var }
    ensures { OnOk result (piece.new
        ≡ piece.old ++ header.var_text net.now device.now (map seen_model models.now.items) number var) }
{
    let it = var_shape(net, device, models, var);
    add_var_type_and_width(is_pin(var), it.width, piece)?;
    add_code(number, piece)?;
    add(b" ", piece)?;
    add_var_name(net, models, var, piece)?;
    add_range(it.range, piece)?;
    add(b" $end\n", piece)?;
    Ok(())
}

/// Adds the line that begins a scope.
fn add_scope(net: &Net, scope: Scope, piece: &mut SureSink) -> Result<(), OutOfMemory>
    requires well_formed { IsNet net.now }
    requires there { vars.IsScope net.now scope }
    ensures { OnOk result (piece.new ≡ piece.old ++ header.scope_text (header.scope_name net.now scope)) }
{
    add(b"$scope module ", piece)?;
    add_scope_name(net, scope, piece)?;
    add(b" $end\n", piece)?;
    Ok(())
}

/// Adds a line of the declarations, by the number of the next variable.
fn add_item(
    net: &Net,
    device: &Device,
    models: &List<Model>,
    number: u64,
    item: Item,
    piece: &mut SureSink,
) -> Result<(), OutOfMemory>
    requires well_formed { IsNet net.now }
    requires models { All (λ m. IsModel (seen_model m)) models.now.items }
    requires there { vars.IsItem net.now (map seen_model models.now.items) item }
    ensures { OnOk result (piece.new
        ≡ piece.old ++ header.item_text net.now device.now (map seen_model models.now.items) number item) }
{
    match item {
        Item::Open(scope) => add_scope(net, scope, piece),
        Item::Declare(var) => add_var(net, device, models, number, var, piece),
        Item::Close => add(b"$upscope $end\n", piece),
    }
}

/// The number of the next variable.
fn next_number(number: u64, item: Item) -> u64
    requires { number < 2 ^ 64 - 1 }
    ensures { result ≡ header.next_number number item }
{
    match item {
        Item::Open(_) => number,
        Item::Declare(_) => number + 1,
        Item::Close => number,
    }
}

/// Adds the lines of scopes and variables.
fn add_items(
    net: &Net,
    device: &Device,
    models: &List<Model>,
    items: &[Item],
    piece: &mut SureSink,
) -> Result<(), OutOfMemory>
    requires well_formed { IsNet net.now }
    requires models { All (λ m. IsModel (seen_model m)) models.now.items }
    requires there { All (vars.IsItem net.now (map seen_model models.now.items)) items.now }
    ensures { OnOk result (piece.new
        ≡ piece.old ++ header.items_text net.now device.now (map seen_model models.now.items) 1 items.now) }
{
    let mut number = 1;
    for item in items {
        add_item(net, device, models, number, *item, piece)?;
        number = next_number(number, *item);
    }
    Ok(())
}

/// Adds the line that begins the scope of the top.
fn add_top(top: &[u8], piece: &mut SureSink) -> Result<(), OutOfMemory>
    ensures { OnOk result (piece.new ≡ piece.old ++ header.scope_text top.now) }
{
    add(b"$scope module ", piece)?;
    add(top, piece)?;
    add(b" $end\n", piece)?;
    Ok(())
}

/// Adds the lines that come first: the scope of the top, with TCK.
fn add_start(top: &[u8], piece: &mut SureSink) -> Result<(), OutOfMemory>
    ensures { OnOk result (piece.new ≡ piece.old ++ header.start_text top.now) }
{
    add(b"$timescale 1 ns $end\n", piece)?;
    add_top(top, piece)?;
    add(b"$var wire 1 ! TCK $end\n", piece)?;
    Ok(())
}

/// Adds the declarations.
pub(crate) fn add_header(
    net: &Net,
    device: &Device,
    models: &List<Model>,
    top: &[u8],
    items: &[Item],
    piece: &mut SureSink,
) -> Result<(), OutOfMemory>
    requires well_formed { IsNet net.now }
    requires models { All (λ m. IsModel (seen_model m)) models.now.items }
    requires there { All (vars.IsItem net.now (map seen_model models.now.items)) items.now }
    ensures { OnOk result (piece.new
        ≡ piece.old ++ header.header net.now device.now (map seen_model models.now.items) top.now items.now) }
{
    add_start(top, piece)?;
    add_items(net, device, models, items, piece)?;
    add(b"$enddefinitions $end\n", piece)?;
    Ok(())
}
