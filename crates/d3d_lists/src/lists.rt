ghost use Rattle.std.specs.Prelude.{◌≡◌, ◌-◌, ◌<◌, ◌++◌, ◌∷◌, [], IfOk, OnErr, OnOk, false, length, replicate, slice_set};
ghost use Rattle.std.specs.List.{list_any};
ghost use Rattle.d3d_model.specs.Stream.{begun_after, begun_in_list};
ghost use Rattle.d3d_lists.specs.declared.name.Name.{Name as Object};
ghost use Rattle.d3d_lists.specs.declared.recorder.TheConstants.{CONTEXTS};
ghost use Rattle.d3d_lists.specs.Calls.{calls_in, numbered};
ghost use Rattle.d3d_lists.specs.Named.{count_of};
ghost use Rattle.d3d_lists.specs.Names.{times_in};
ghost use Rattle.d3d_lists.specs.Opened.{recorded_at, recorded_in};

use crate::name::names_of;
use crate::named::Named;
use crate::numbered::Numbered;
use crate::opened::OpenList;
use crate::recorder::CONTEXTS;
use std::alloc::{AllocError, Global};

/// An empty open list for each context.
pub(crate) fn open_lists<'a>(alloc: Global) -> Result<Vec<OpenList<'a>>, AllocError>
    ensures count { IfOk result (λ v. length v.items ≡ CONTEXTS) }
    ensures empty { IfOk result (λ v. recorded_in v.items ≡ replicate CONTEXTS []) }
{
    let mut opened = Vec::new(alloc);
    'contexts: for _i in 0..CONTEXTS {
        opened.push(OpenList::new(alloc))?;
    }
    Ok(opened)
}

/// How many calls the open list of a context has.
pub(crate) fn count_at(opened: &[OpenList<'_>], context: usize) -> usize
    requires { context < length opened.now }
    ensures { result ≡ length (recorded_at opened.now context) }
{
    opened[context].count()
}

/// Whether the open list of a context leaves a query begun.
pub(crate) fn is_begun_at(opened: &[OpenList<'_>], context: usize, query: u32) -> bool
    requires { context < length opened.now }
    ensures { result ≡ begun_after query false (recorded_at opened.now context) }
{
    opened[context].is_begun(query)
}

/// Whether the open list of a context leaves a query begun that it begins.
pub(crate) fn leaves_begun_at(opened: &[OpenList<'_>], context: usize) -> bool
    requires { context < length opened.now }
    ensures { let cs = recorded_at opened.now context in
        result ≡ list_any (λ q. begun_after q false cs) (begun_in_list cs) }
{
    opened[context].leaves_begun()
}

/// One more call is recorded in the open list of a context. Want of memory changes nothing.
pub(crate) fn push_at<'a>(
    opened: &mut [OpenList<'a>],
    context: usize,
    call: Numbered<'a>,
) -> Result<(), AllocError>
    requires { context < length opened.old }
    ensures pushed { OnOk result (recorded_in opened.new ≡ slice_set (recorded_in opened.old) context
        (recorded_at opened.old context ++ numbered call.entry ∷ [])) }
    ensures unchanged { OnErr result (recorded_in opened.new ≡ recorded_in opened.old) }
{
    opened[context].push(call)
}

/// The calls of the open list of a context, which leave an empty one.
pub(crate) fn take_at<'a>(
    opened: &mut [OpenList<'a>],
    context: usize,
    alloc: Global,
) -> Vec<Numbered<'a>>
    requires { context < length opened.old }
    ensures taken { calls_in result.items ≡ recorded_at opened.old context }
    ensures left { recorded_in opened.new ≡ slice_set (recorded_in opened.old) context [] }
{
    opened[context].take(alloc)
}

/// The calls of a list that is live no more name nothing.
pub(crate) fn uncount(named: &mut Named, calls: &[Numbered<'_>])
    ensures { (k : Object) → count_of named.new k ≡ count_of named.old k - times_in k (calls_in calls.now) }
{
    'calls: for c in calls {
        let (one, two) = names_of(&c.call);
        named.lower(one);
        named.lower(two);
    }
}
