//! Two sets compared.

ghost use Rattle.std.specs.Prelude.{◌≡◌, ◌≤◌, ◌+◌};
ghost use Rattle.tree_costs.specs.declared.cost.Cost.TheVariants.{Fin};
ghost use Rattle.bound_checker.specs.Tabled.{costs_of};
ghost use Rattle.comparison_tables.specs.Outcome.{AreExactTables};
ghost use Rattle.separating_article.specs.Separating.{HasSeparating, IsChosenOf};
ghost use Rattle.separating_article.specs.Articles.{text_size};
ghost use Rattle.tagset_compare.specs.Compared.{Compares};

use crate::bounds::bound_of;
use crate::copies::copy_broken;
use crate::{CompareFault, Verdict};
use article_validator::first_broken;
use bound_checker::Tables;
use comparison_tables::{TablesFault, exact_tables};
use decl_set::DeclSet;
use document_trees::Node;
use jats_chars::Name;
use separating_article::{BuildOver, separating};
use std::alloc::Global;
use tagset_report::{ReportFault, report};
use tree_costs::Cost;

/// The answer by the chosen article: with it comes the first of its nodes that does not meet the second set.
fn with_article(
    alloc: Global,
    first: &DeclSet,
    second: &DeclSet,
    tables: Tables,
    article: Node,
    limit: u64,
) -> Result<Verdict, CompareFault>
    requires exact { AreExactTables first.now second.now tables.root tables.cap tables }
    requires least { HasSeparating first.now tables }
    requires chosen { IsChosenOf first.now second.now tables article }
    requires text { text_size article ≤ limit }
    ensures { Compares first.now second.now tables.root tables.cap limit result }
{
    let _ = first.count();
    let _ = second.count();
    match first_broken(alloc, second, &article) {
        Err(_) => Err(CompareFault::NoMemory),
        Ok(None) => unreachable!(),
        Ok(Some(broken)) => Ok(Verdict::Not {
            article,
            broken,
            tables,
        }),
    }
}

/// The answer where the bound is a number up to the cap.
fn separated(
    alloc: Global,
    first: &DeclSet,
    second: &DeclSet,
    tables: Tables,
    limit: u64,
) -> Result<Verdict, CompareFault>
    requires exact { AreExactTables first.now second.now tables.root tables.cap tables }
    requires least { HasSeparating first.now tables }
    ensures { Compares first.now second.now tables.root tables.cap limit result }
{
    match separating(alloc, first, second, &tables, limit) {
        Err(BuildOver::TextOver) => Err(CompareFault::TextOver),
        Err(BuildOver::NoMemory) => Err(CompareFault::NoMemory),
        Ok(article) => with_article(alloc, first, second, tables, article, limit),
    }
}

/// The answer where the bound is one above the cap.
fn above(
    alloc: Global,
    first: &DeclSet,
    second: &DeclSet,
    tables: Tables,
    limit: u64,
) -> Result<Verdict, CompareFault>
    requires exact { AreExactTables first.now second.now tables.root tables.cap tables }
    requires over { (costs_of first.now tables).v tables.root ≡ Fin (tables.cap + 1) }
    ensures { Compares first.now second.now tables.root tables.cap limit result }
{
    let _ = first.count();
    let _ = second.count();
    match report(alloc, first, second, &tables.root) {
        Err(ReportFault::RootUndeclared) => Err(CompareFault::RootUndeclared),
        Err(ReportFault::PairsOver(name)) => Err(CompareFault::PairsOver(name)),
        Err(ReportFault::NoMemory) => Err(CompareFault::NoMemory),
        Ok(report) => match report.differs.get(0) {
            None => unreachable!(),
            Some(broken) => {
                let broken = copy_broken(alloc, broken)?;
                Ok(Verdict::Over { broken, tables })
            }
        },
    }
}

/// The answer by exact tables.
fn by_tables(
    alloc: Global,
    first: &DeclSet,
    second: &DeclSet,
    tables: Tables,
    limit: u64,
) -> Result<Verdict, CompareFault>
    requires exact { AreExactTables first.now second.now tables.root tables.cap tables }
    ensures { Compares first.now second.now tables.root tables.cap limit result }
{
    match bound_of(first, &tables) {
        Cost::Inf => Ok(Verdict::Subset { tables }),
        Cost::Fin(bound) => {
            if bound <= tables.cap {
                separated(alloc, first, second, tables, limit)
            } else {
                above(alloc, first, second, tables, limit)
            }
        }
    }
}

/// Whether every document of the first set from a root is one of the second. `Subset` where it is; `Not` with the chosen
/// separating article, which has as few elements as can be, where that is at most `cap`; `Over` where each separating
/// article has more elements. With each come the exact tables of the two sets.
///
/// `RootUndeclared` exactly where the first does not declare the root; `PairsOver` exactly where, in order of declaration,
/// the sum of listed pairs passes 2,000,000 at the element that it names; `TextOver` exactly where there is a separating
/// article to show, and its text has more than `limit` bytes; `NoMemory` where memory runs out.
pub fn compare(
    alloc: Global,
    first: &DeclSet,
    second: &DeclSet,
    root: &Name,
    cap: u32,
    limit: u64,
) -> Result<Verdict, CompareFault>
    requires { cap ≤ 100000 }
    ensures { Compares first.now second.now root.now cap limit result }
{
    if first.content_of(root).is_none() {
        return Err(CompareFault::RootUndeclared);
    }
    match exact_tables(alloc, first, second, root, cap) {
        Err(TablesFault::PairsOver(name)) => Err(CompareFault::PairsOver(name)),
        Err(TablesFault::NoMemory) => Err(CompareFault::NoMemory),
        Ok(tables) => by_tables(alloc, first, second, tables, limit),
    }
}
