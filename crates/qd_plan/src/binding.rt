//! The binding of a query's expressions.
ghost use Rattle.std.specs.Prelude.{◌≡◌, IfOk};
ghost use Rattle.qd_bind.specs.Scoped.{scope};
ghost use Rattle.qd_bind.specs.Seen.{typed};
ghost use Rattle.qd_meaning.specs.Binding as meant;

use qd_base::Memory;
use qd_bind::{BindFault, Scope, Typed};
use qd_sql_ast::Expr;
use std::alloc::{AllocError, Global};

/// Binds an expression as `qd_bind::bind` does. One that nests too deep is answered as want of memory is.
pub(crate) fn bind(alloc: Global, columns: &Scope<'_>, expr: &Expr) -> Result<Typed, Memory>
    ensures bound { IfOk result (λ made. made ≡ typed (meant.typed (scope columns.now) expr.now)) }
{
    match qd_bind::bind(alloc, columns, expr) {
        Ok(made) => Ok(made),
        Err(BindFault::Memory | BindFault::TooDeep) => Err(AllocError),
    }
}
