// Routers.
ghost use Rattle.std.specs.Prelude.{◌≡◌, ◌≤◌, length, map, IfOk, IfErr};
ghost use Rattle.expr_lang.specs.TreeOf.{tree_of};
ghost use Rattle.op_kinds.specs.Compiled.{AreExpressions};
ghost use Rattle.op_kinds.specs.Readings.{Caused, route_reading};

use crate::condition::holds;
use crate::reading::expression;
use crate::{OpCause, Record};
use entry_model::Entry;
use expr_lang::Expr;
use settings_text::RouteSpec;
use std::alloc::{AllocError, Global};

/// Sends an entry to the port of the first route that is true for it, or else to the one behind those of the routes,
/// where it has a default.
#[derive(Drop)]
pub(crate) struct Router {
    pub(crate) routes: Vec<Expr>,
    pub(crate) has_default: bool,
    pub ghost few: { length routes.items ≤ 65534 },
}

impl Router {
    ghost use Rattle.std.specs.Prelude.{◌≡◌, ◌++◌, ◌+◌, ◌≤◌, IfOk, IfErr, OnOk, map, if◌then◌else◌, length};
    ghost use Rattle.entry_model.specs.LogRecord.{log_record};
    ghost use Rattle.expr_lang.specs.TreeOf.{tree_of};
    ghost use Rattle.op_kinds.specs.Compiled.{AreExpressions};
    ghost use Rattle.op_kinds.specs.Operator as operator;
    ghost use Rattle.op_kinds.specs.Readings.{Caused, route_reading};

    pub(crate) fn compile(
        alloc: Global,
        routes: &[RouteSpec],
        has_default: bool,
    ) -> Result<Router, OpCause>
        requires { length routes.now ≤ 65534 }
        ensures ok { IfOk result (λ router. AreExpressions routes.now (map tree_of router.routes.items)) }
        ensures default { IfOk result (λ router. router.has_default ≡ has_default) }
        ensures cause { IfErr result (Caused (map route_reading routes.now)) }
    {
        let routes = expressions(alloc, routes)?;
        Ok(Router {
            routes,
            has_default,
        })
    }

    pub(crate) fn ports(&self) -> u16
        ensures { result ≡ length self.now.routes.items + (if self.now.has_default then 1 else 0) }
    {
        let routes = self.routes.len() as u16;
        if self.has_default { routes + 1 } else { routes }
    }

    /// Emits an entry where it is routed.
    pub(crate) fn emit(
        &self,
        alloc: Global,
        item: Record,
        out: &mut Vec<(u16, Record)>,
    ) -> Result<(), AllocError>
        ensures { OnOk result (out.new.items ≡ out.old.items ++ operator.routed
            (operator.route_port 0 (map tree_of self.now.routes.items) self.now.has_default item) item) }
    {
        if let Some(port) = self.port(alloc, &item.entry)? {
            out.push((port, item))?;
        }
        Ok(())
    }

    fn port(&self, alloc: Global, entry: &Entry) -> Result<Option<u16>, AllocError>
        ensures { IfOk result (λ port. port
            ≡ operator.route_port 0 (map tree_of self.now.routes.items) self.now.has_default (log_record entry.now)) }
    {
        for (index, route) in self.routes.iter().enumerate() {
            if holds(alloc, route, entry)?.unwrap_or(false) {
                return Ok(Some(index as u16));
            }
        }
        if self.has_default {
            Ok(Some(self.routes.len() as u16))
        } else {
            Ok(None)
        }
    }
}

fn expressions(alloc: Global, routes: &[RouteSpec]) -> Result<Vec<Expr>, OpCause>
    ensures ok { IfOk result (λ exprs. AreExpressions routes.now (map tree_of exprs.items)) }
    ensures many { IfOk result (λ exprs. length exprs.items ≡ length routes.now) }
    ensures cause { IfErr result (Caused (map route_reading routes.now)) }
{
    let mut exprs = Vec::new(alloc);
    for route in routes {
        exprs.push(expression(alloc, &route.expr)?)?;
    }
    Ok(exprs)
}
