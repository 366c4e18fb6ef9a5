//! What an exchange is opened with.

ghost use Rattle.std.specs.Prelude.{◌≡◌, ◌++◌, ◌<◌, OnOk, codes, decimal, flat_map, length, string_bytes};
ghost use Rattle.std.specs.List.{range_with_len};
ghost use Rattle.dr_drive.specs.Calls.Shows.{core_of};
ghost use Rattle.dr_meaning.specs.Meaning.Machine.{is_single};
ghost use Rattle.dr_show.specs.Meaning.Texts.{bool_text, bytes_text, comma_before};
ghost use Rattle.dr_show.specs.Meaning.StateText.{exchange_text, named_object, upstream_text};

use crate::texts::{put_bytes, put_comma, word_of};
use dr_drive::Exchange;
use dr_drive::setup::ring_records::Ring;
use dr_drive::standing::name_of;
use dr_graph::Graph;
use std::alloc::AllocError;

fn put_upstream(page: &mut String, upstreams: &[usize], place: usize) -> Result<(), AllocError>
    requires { place < length upstreams.now }
    ensures { OnOk result (string_bytes page.new ≡ string_bytes page.old ++ upstream_text upstreams.now place) }
{
    let upstream = upstreams[place];
    put_comma(page, place as u64)?;
    write!(page, "{upstream}")
}

fn put_upstreams(page: &mut String, upstreams: &[usize]) -> Result<(), AllocError>
    ensures { OnOk result (string_bytes page.new ≡ string_bytes page.old ++ flat_map (upstream_text upstreams.now) (range_with_len 0 (length upstreams.now))) }
{
    for place in 0..upstreams.len() {
        put_upstream(page, upstreams, place)?;
    }
    Ok(())
}

// Puts what comes before a handler's upstreams.
fn put_opening(page: &mut String, h: usize, name: &str) -> Result<(), AllocError>
    ensures { OnOk result (string_bytes page.new ≡ string_bytes page.old ++ (comma_before h ++ codes "{\"name\":\"" ++ bytes_text name.now ++ codes "\",\"upstreams\":[")) }
{
    put_comma(page, h as u64)?;
    page.push_str("{\"name\":\"")?;
    put_bytes(page, name.as_bytes())?;
    page.push_str("\",\"upstreams\":[")
}

fn put_name(page: &mut String, graph: &Graph, h: usize) -> Result<(), AllocError>
    requires { h < length graph.now.upstreams }
    ensures { OnOk result (string_bytes page.new ≡ string_bytes page.old ++ named_object graph.now.names graph.now.upstreams h) }
{
    put_opening(page, h, name_of(graph, h))?;
    put_upstreams(page, graph.upstreams(h))?;
    page.push_str("]}")
}

fn put_names(page: &mut String, graph: &Graph) -> Result<(), AllocError>
    ensures { OnOk result (string_bytes page.new ≡ string_bytes page.old ++ flat_map (named_object graph.now.names graph.now.upstreams) (range_with_len 0 (length graph.now.upstreams))) }
{
    for h in 0..graph.len() {
        put_name(page, graph, h)?;
    }
    Ok(())
}

// Puts how many slots and producers there are.
fn put_size(page: &mut String, size: u64, producers: u64) -> Result<(), AllocError>
    ensures { OnOk result (string_bytes page.new ≡ string_bytes page.old ++ (codes ",\"exchange\":{\"size\":" ++ decimal size ++ codes ",\"producers\":" ++ decimal producers)) }
{
    write!(
        page,
        ",\"exchange\":{{\"size\":{size},\"producers\":{producers}"
    )
}

// Puts whether there is one producer by its mode, and the limit.
fn put_mode(page: &mut String, ring: Ring) -> Result<(), AllocError>
    ensures { OnOk result (string_bytes page.new ≡ string_bytes page.old ++ (codes ",\"single\":" ++ bool_text (is_single ring.mode) ++ codes ",\"limit\":\"" ++ decimal ring.limit ++ codes "\",\"handlers\":[")) }
{
    let single = word_of(ring.mode.is_single());
    let limit = ring.limit;
    write!(
        page,
        ",\"single\":{single},\"limit\":\"{limit}\",\"handlers\":["
    )
}

/// Puts what an exchange was opened with.
pub(crate) fn put_exchange(page: &mut String, exchange: &Exchange) -> Result<(), AllocError>
    ensures { OnOk result (string_bytes page.new ≡ string_bytes page.old ++ exchange_text (core_of exchange.now).names (core_of exchange.now).setup) }
{
    let core = exchange.core();
    put_size(page, core.size().get(), core.producers())?;
    put_mode(page, exchange.ring())?;
    put_names(page, core.graph())?;
    page.push_str("]}")
}
