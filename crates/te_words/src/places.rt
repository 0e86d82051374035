//! Where nodes are on a map, as JSON.
ghost use Rattle.std.specs.Prelude.{◌≡◌, ◌≤◌, ◌<◌, ◌++◌, ◌∷◌, ◌+◌, [], codes, drop, length, Some, IfOk, OnOk};
ghost use Rattle.std.specs.Fmt.{signed_decimal};
ghost use Rattle.json.specs.Tree.{depth, items_tokens, json_tokens};
ghost use Rattle.json.specs.Token.{Token};
ghost use Rattle.json.specs.Json.{Items, Json, document, max_depth};
ghost use Rattle.te_words.specs.Places.{place_json, places_document, places_json, with_place};

use json::Writer;
use std::alloc::{AllocError, Global};
use te_base::{NodeNumber, NodePlace, TeBase};

fn put_name(writer: &mut Writer, name: &str) -> Result<(), AllocError>
    ensures before { writer.new.before ≡ writer.old.before }
    ensures written { OnOk result (writer.new.tokens ≡ writer.old.tokens ++ (Token.key (codes "name") ∷ Token.string name.now ∷ [])) }
{
    writer.key("name")?;
    writer.string(name)
}

fn put_number(writer: &mut Writer, key: &str, number: i64) -> Result<(), AllocError>
    ensures before { writer.new.before ≡ writer.old.before }
    ensures written { OnOk result (writer.new.tokens ≡ writer.old.tokens ++ (Token.key key.now ∷ Token.number (signed_decimal number) ∷ [])) }
{
    writer.key(key)?;
    writer.i64(number)
}

fn put_members(writer: &mut Writer, name: &str, place: NodePlace) -> Result<(), AllocError>
    ensures before { writer.new.before ≡ writer.old.before }
    ensures written { OnOk result (writer.new.tokens ≡ writer.old.tokens ++ (Token.key (codes "name") ∷ Token.string name.now ∷ Token.key (codes "x") ∷ Token.number (signed_decimal place.x) ∷ Token.key (codes "y") ∷ Token.number (signed_decimal place.y) ∷ [])) }
{
    put_name(writer, name)?;
    put_number(writer, "x", place.x)?;
    put_number(writer, "y", place.y)
}

fn put_place(writer: &mut Writer, name: &str, place: NodePlace) -> Result<(), AllocError>
    ensures before { writer.new.before ≡ writer.old.before }
    ensures written { OnOk result (writer.new.tokens ≡ writer.old.tokens ++ json_tokens (place_json name.now place)) }
{
    writer.begin_object()?;
    put_members(writer, name, place)?;
    writer.end_object()
}

/// Writes the place of a node, if it has one.
fn put_place_of(writer: &mut Writer, name: &str, place: Option<NodePlace>) -> Result<(), AllocError>
    ensures before { writer.new.before ≡ writer.old.before }
    ensures written { OnOk result ((others : Items) → writer.new.tokens ++ items_tokens others ≡ writer.old.tokens ++ items_tokens (with_place name.now place others)) }
{
    match place {
        Some(place) => put_place(writer, name, place),
        None => Ok(()),
    }
}

fn put_node(writer: &mut Writer, base: &TeBase, number: NodeNumber) -> Result<(), AllocError>
    requires { number < length base.now.nodes }
    ensures before { writer.new.before ≡ writer.old.before }
    ensures written { OnOk result (writer.new.tokens ++ items_tokens (places_json (drop (number + 1) base.now.nodes)) ≡ writer.old.tokens ++ items_tokens (places_json (drop number base.now.nodes))) }
{
    let Some((name, _, place)) = base.node(number) else {
        unreachable!()
    };
    put_place_of(writer, name, place)
}

fn put_places(writer: &mut Writer, base: &TeBase) -> Result<(), AllocError>
    ensures before { writer.new.before ≡ writer.old.before }
    ensures written { OnOk result (writer.new.tokens ≡ writer.old.tokens ++ items_tokens (places_json base.now.nodes)) }
{
    for number in 0..base.node_count() {
        put_node(writer, base, number)?;
    }
    writer.end_array()
}

/// Opens the document and its list.
fn open_list(writer: &mut Writer) -> Result<(), AllocError>
    ensures before { writer.new.before ≡ writer.old.before }
    ensures written { OnOk result (writer.new.tokens ≡ writer.old.tokens ++ (Token.begin_object ∷ Token.key (codes "places") ∷ Token.begin_array ∷ [])) }
{
    writer.begin_object()?;
    writer.key("places")?;
    writer.begin_array()
}

fn put_document(writer: &mut Writer, base: &TeBase) -> Result<(), AllocError>
    ensures before { writer.new.before ≡ writer.old.before }
    ensures written { OnOk result (writer.new.tokens ≡ writer.old.tokens ++ json_tokens (places_document base.now.nodes)) }
{
    open_list(writer)?;
    put_places(writer, base)?;
    writer.end_object()
}

/// Returns the text of a whole value.
fn closed(writer: Writer) -> Vec<u8>
    ensures { (j : Json) → writer.before ≡ [] → writer.tokens ≡ json_tokens j → depth j ≤ max_depth → document result.items ≡ Some j }
{
    writer.into_inner()
}

/// Writes the places of the nodes that have one as JSON.
pub fn places_text(alloc: Global, base: &TeBase) -> Result<Vec<u8>, AllocError>
    ensures { IfOk result (λ out. document out.items ≡ Some (places_document base.now.nodes)) }
{
    let mut writer = Writer::new(Vec::new(alloc));
    put_document(&mut writer, base)?;
    Ok(closed(writer))
}
