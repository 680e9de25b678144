// The type `router`.
ghost use Rattle.std.specs.Prelude.{◌≡◌, ◌++◌, codes, IfOk, string_bytes};
ghost use Rattle.serde_json.specs.View.{view, items_view};
ghost use Rattle.settings_text.specs.Kinds as kinds;
ghost use Rattle.settings_text.specs.Outcome.{Gives};
ghost use Rattle.settings_text.specs.Place.{item_place};
ghost use Rattle.settings_text.specs.Types.Routing as routing;

use crate::fault::SettingsFault;
use crate::kinds::{check_known, optional_texts, text, text_or_texts};
use crate::lists::Routes;
use crate::place::{item_place, place};
use crate::settings::{OpKind, RouteSpec};
use crate::words::{Words, is_one_of};
use serde_json::Value;
use std::alloc::{AllocError, Global};

/// The most routes that a router may have.
const MOST_ROUTES: usize = 65_534;

pub fn is_key(name: &str) -> bool
    ensures { result ≡ routing.is_key name.now }
{
    is_one_of(name, &["routes", "default"])
}

/// The keys of a route.
struct RouteKeys;

impl Words for RouteKeys {
    ghost use Rattle.settings_text.specs.Types.Routing.{is_route_key};

    ghost test = { λ _. is_route_key };

    fn has(&self, name: &str) -> bool {
        is_one_of(name, &["expr", "output"])
    }
}

fn front(alloc: Global, at: &str, index: usize) -> Result<String, AllocError>
    ensures { IfOk result (λ text. string_bytes text
        ≡ item_place (at.now ++ codes "routes") index ++ codes ".") }
{
    let place = item_place(alloc, at, "routes", index)?;
    format!(in alloc; "{place}.")
}

#[tactic(auto, unfolding(crate::specs::Types::Routing::route))]
fn route(alloc: Global, value: &Value, at: &str, index: usize) -> Result<RouteSpec, SettingsFault>
    ensures { Gives (λ route. route) result (routing.route (at.now ++ codes "routes") index (view value.now)) }
{
    let Some(members) = value.as_object() else {
        return Err(SettingsFault::WrongKind {
            key: item_place(alloc, at, "routes", index)?,
        });
    };
    let front = front(alloc, at, index)?;
    let at = front.as_str();
    check_known(alloc, members, at, &RouteKeys)?;
    let expr = text(alloc, value, at, "expr")?;
    let output = text_or_texts(alloc, value, at, "output")?;
    Ok(RouteSpec { expr, output })
}

fn routes_of(alloc: Global, values: &Vec<Value>, at: &str) -> Result<Routes, SettingsFault>
    ensures { Gives (λ routes. routes) result
        (kinds.each (routing.route (at.now ++ codes "routes")) 0 (items_view values.now.items)) }
{
    let mut routes = Vec::new(alloc);
    for (index, value) in values.iter().enumerate() {
        let route = route(alloc, value, at, index)?;
        routes.push(route)?;
    }
    Ok(Routes::new(routes))
}

/// The routes, which must be there.
fn routes(alloc: Global, object: &Value, at: &str) -> Result<Routes, SettingsFault>
    ensures { Gives (λ routes. routes) result
        (kinds.must at.now (codes "routes") routing.routes (view object.now)) }
{
    let Some(value) = object.get("routes") else {
        return Err(SettingsFault::Missing {
            key: place(alloc, at, "routes")?,
        });
    };
    let Some(values) = value.as_array() else {
        return Err(SettingsFault::WrongKind {
            key: place(alloc, at, "routes")?,
        });
    };
    let count = values.as_slice().len();
    if count == 0 || count > MOST_ROUTES {
        return Err(SettingsFault::OutOfRange {
            key: place(alloc, at, "routes")?,
        });
    }
    routes_of(alloc, values, at)
}

pub fn read(alloc: Global, object: &Value, at: &str) -> Result<OpKind, SettingsFault>
    ensures { Gives (λ kind. kind) result (routing.read at.now (view object.now)) }
{
    let routes = routes(alloc, object, at)?;
    let default = optional_texts(alloc, object, at, "default")?;
    Ok(OpKind::Router { routes, default })
}
