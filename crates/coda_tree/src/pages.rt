// A directory's pairs in pages, one after the other: a name more or less moves only what stands behind it in its page.
ghost use Rattle.std.specs.Prelude.{◌≡◌, ◌≢◌, ◌<◌, ◌≤◌, ◌+◌, true, length, vec_len, vec_capacity, slice_index_or, insert, IfOk, OnOk, OnErr, IfErr, IsSome, is_some, IsTrue, ◌∷◌, [], slice_get, option_copied};
ghost use Rattle.std.specs.declared.cmp.Ordering.TheVariants.{Greater};
ghost use Rattle.std.specs.FinMap.Entries.{is_sorted, find, put};
ghost use Rattle.coda_fid.specs.Name.{name_cmp};
ghost use Rattle.coda_tree.specs.Bindings.{IsIndexOf, IsGapFor};
ghost use Rattle.coda_tree.specs.Pages.{all_pairs, any_binds, AreFilled, pairs_at, with_pairs, first_cmp, IsPageFor, without, ChangesPage};

use crate::guide::Guide;
use coda_fid::{Fid, Name};
use std::alloc::{AllocError, Global};
use std::cmp::Ordering;

// The number of names from which on a page is split where another comes into it.
const FULL: usize = 32;

// Where to look next between two places: at the end first, since names often come in order, and then in the middle.
fn probe(low: usize, high: usize, end: usize) -> usize
    requires { low < high }
    ensures from { low ≤ result }
    ensures inner { low + 1 < high → low < result }
    ensures below { result < high }
{
    if high == end {
        high - 1
    } else {
        low + (high - low) / 2
    }
}

// Where the name is, or where it would go.
pub(crate) fn search(items: &[(Name, Fid)], name: &Name) -> Result<usize, usize>
    requires { IsTrue (is_sorted name_cmp items.now) }
    ensures found { IfOk result (λ i. IsIndexOf items.now name.now i) }
    ensures absent { IfErr result (λ i. IsGapFor items.now name.now i) }
{
    let mut low = 0;
    let mut high = items.len();
    while low < high {
        let mid = probe(low, high, items.len());
        match items[mid].0.compare(name) {
            Ordering::Less => low = mid + 1,
            Ordering::Equal => return Ok(mid),
            Ordering::Greater => high = mid,
        }
    }
    Err(low)
}

// The first name of a page against a name.
fn compare_first(page: &[(Name, Fid)], name: &Name) -> Ordering
    ensures { result ≡ first_cmp page.now name.now }
{
    match page {
        [] => Ordering::Less,
        [first, ..] => first.0.compare(name),
    }
}

// The page that has a name if any has it, of those from one to before another: that begins at or before the name, and the
// other one after it.
fn page_between(pages: &[Vec<(Name, Fid)>], name: &Name, from: usize, to: usize) -> usize
    requires ordered { from < to }
    requires in_range { to ≤ length pages.now }
    requires from { 0 < from → first_cmp (pairs_at pages.now from) name.now ≢ Greater }
    requires to { to < length pages.now → first_cmp (pairs_at pages.now to) name.now ≡ Greater }
    ensures { IsPageFor pages.now name.now result }
{
    let mut low = from;
    let mut high = to;
    while low + 1 < high {
        let mid = probe(low, high, pages.len());
        if compare_first(&pages[mid], name).is_gt() {
            high = mid;
        } else {
            low = mid;
        }
    }
    low
}

// Whether a page, if it isn't the first, begins at or before a name.
fn begins_by(pages: &[Vec<(Name, Fid)>], name: &Name, at: usize) -> bool
    requires { at < length pages.now }
    ensures { result ≡ true → 0 < at → first_cmp (pairs_at pages.now at) name.now ≢ Greater }
{
    at == 0 || !compare_first(&pages[at], name).is_gt()
}

// Whether a page, if there is one, begins after a name.
fn begins_after(pages: &[Vec<(Name, Fid)>], name: &Name, at: usize) -> bool
    ensures { result ≡ true → at < length pages.now → first_cmp (pairs_at pages.now at) name.now ≡ Greater }
{
    at >= pages.len() || compare_first(&pages[at], name).is_gt()
}

// The page that has a name if any has it. The guide says where to look first.
pub(crate) fn page_for(pages: &[Vec<(Name, Fid)>], guide: &Guide, name: &Name) -> usize
    requires { 0 < length pages.now }
    ensures { IsPageFor pages.now name.now result }
{
    if let Some((from, to)) = guide.between(pages.len(), name) {
        let is_good = from < to
            && to <= pages.len()
            && begins_by(pages, name, from)
            && begins_after(pages, name, to);
        if is_good {
            return page_between(pages, name, from, to);
        }
    }
    page_between(pages, name, 0, pages.len())
}

// What the name is bound to in sorted pairs.
pub(crate) fn find_in(page: &[(Name, Fid)], name: &Name) -> Option<Fid>
    requires { IsTrue (is_sorted name_cmp page.now) }
    ensures { result ≡ find name_cmp name.now page.now }
{
    match search(page, name) {
        Ok(at) => Some(page[at].1),
        Err(_) => None,
    }
}

// Binds a name in sorted pairs. Fails for want of memory alone, and then changes nothing.
fn put_in(page: &mut Vec<(Name, Fid)>, name: Name, fid: Fid) -> Result<(), AllocError>
    requires { IsTrue (is_sorted name_cmp page.old.items) }
    ensures ok { OnOk result (page.new.items ≡ put name_cmp name fid page.old.items) }
    ensures err { OnErr result (page.new.items ≡ page.old.items) }
{
    match search(page, &name) {
        Ok(at) => {
            page[at].1 = fid;
            Ok(())
        }
        Err(at) => Ok(page.insert(at, (name, fid))?),
    }
}

// Binds a bound name in sorted pairs to another fid.
fn rebind_in(page: &mut Vec<(Name, Fid)>, name: &Name, fid: Fid)
    requires sorted { IsTrue (is_sorted name_cmp page.old.items) }
    requires bound { IsSome (find name_cmp name.now page.old.items) }
    ensures { page.new.items ≡ put name_cmp name.now fid page.old.items }
{
    match search(page, name) {
        Ok(at) => page[at].1 = fid,
        Err(_) => {}
    }
}

// Unbinds a name in sorted pairs, where it is bound, and answers whether it was.
fn remove_in(page: &mut Vec<(Name, Fid)>, name: &Name) -> bool
    requires { IsTrue (is_sorted name_cmp page.old.items) }
    ensures pairs { page.new.items ≡ without name.now page.old.items }
    ensures was { result ≡ is_some (find name_cmp name.now page.old.items) }
{
    match search(page, name) {
        Ok(at) => {
            let _ = page.remove(at);
            true
        }
        Err(_) => false,
    }
}

// Binds a name in a page. Fails for want of memory alone, and then changes nothing.
pub(crate) fn put_at(
    pages: &mut Vec<Vec<(Name, Fid)>>,
    at: usize,
    name: Name,
    fid: Fid,
) -> Result<(), AllocError>
    requires there { at < length pages.old.items }
    requires sorted { IsTrue (is_sorted name_cmp (pairs_at pages.old.items at)) }
    ensures ok { OnOk result (ChangesPage pages.old.items pages.new.items at (put name_cmp name fid (pairs_at pages.old.items at))) }
    ensures err { OnErr result (ChangesPage pages.old.items pages.new.items at (pairs_at pages.old.items at)) }
{
    put_in(&mut pages[at], name, fid)
}

// Binds a bound name in a page to another fid.
pub(crate) fn rebind_at(pages: &mut Vec<Vec<(Name, Fid)>>, at: usize, name: &Name, fid: Fid)
    requires there { at < length pages.old.items }
    requires sorted { IsTrue (is_sorted name_cmp (pairs_at pages.old.items at)) }
    requires bound { IsSome (find name_cmp name.now (pairs_at pages.old.items at)) }
    ensures { ChangesPage pages.old.items pages.new.items at (put name_cmp name.now fid (pairs_at pages.old.items at)) }
{
    rebind_in(&mut pages[at], name, fid);
}

// Unbinds a name in a page, where it is bound, and answers whether it was. A page that has no name left goes.
fn remove_at(pages: &mut Vec<Vec<(Name, Fid)>>, guide: &mut Guide, at: usize, name: &Name) -> bool
    requires there { at < length pages.old.items }
    requires sorted { IsTrue (is_sorted name_cmp (pairs_at pages.old.items at)) }
    ensures pairs { all_pairs pages.new.items ≡ with_pairs pages.old.items at (without name.now (pairs_at pages.old.items at)) }
    ensures filled { AreFilled pages.old.items → AreFilled pages.new.items }
    ensures was { result ≡ is_some (find name_cmp name.now (pairs_at pages.old.items at)) }
{
    let was = remove_in(&mut pages[at], name);
    if pages[at].is_empty() {
        let _ = pages.remove(at);
        guide.shrink(at);
    } else {
        guide.note(pages, at);
    }
    was
}

// Splits a page in two where it is full: a page in the middle into halves, the last one near its end, since names that
// come in order come there. Fails for want of memory alone; the pairs are the same in any case.
fn split(pages: &mut Vec<Vec<(Name, Fid)>>, guide: &mut Guide, at: usize) -> Result<(), AllocError>
    requires { at < length pages.old.items }
    ensures pairs { all_pairs pages.new.items ≡ all_pairs pages.old.items }
    ensures filled { AreFilled pages.old.items → AreFilled pages.new.items }
    ensures some { 0 < length pages.new.items }
{
    if pages[at].len() < FULL {
        return Ok(());
    }
    pages.reserve(1)?;
    let keep = if at + 1 == pages.len() {
        FULL - FULL / 8
    } else {
        FULL / 2
    };
    let tail = pages[at].split_off(keep)?;
    insert_page(pages, at + 1, tail);
    guide.grow(*pages.allocator(), pages, at + 1);
    Ok(())
}

// Puts a page in at a place. There is room for it.
fn insert_page(pages: &mut Vec<Vec<(Name, Fid)>>, at: usize, page: Vec<(Name, Fid)>)
    requires place { at ≤ vec_len pages.old }
    requires room { vec_len pages.old < vec_capacity pages.old }
    ensures items { pages.new.items ≡ insert pages.old.items at page }
    ensures len { vec_len pages.new ≡ vec_len pages.old + 1 }
{
    let put = pages.insert(at, page).is_ok();
    prove!(put);
}

// Binds a name where there is no page yet. Fails for want of memory alone, and then changes nothing.
fn put_first(pages: &mut Vec<Vec<(Name, Fid)>>, name: Name, fid: Fid) -> Result<(), AllocError>
    requires { vec_len pages.old ≡ 0 }
    ensures ok { OnOk result (all_pairs pages.new.items ≡ (name, fid) ∷ []) }
    ensures err { OnErr result (all_pairs pages.new.items ≡ []) }
    ensures filled { AreFilled pages.new.items }
{
    let mut page = Vec::new(*pages.allocator());
    page.push((name, fid))?;
    pages.push(page)?;
    Ok(())
}

// Binds a name where its page is full, once that is split. Fails for want of memory alone, and then changes nothing.
fn put_split(
    pages: &mut Vec<Vec<(Name, Fid)>>,
    guide: &mut Guide,
    full: usize,
    name: Name,
    fid: Fid,
) -> Result<(), AllocError>
    requires there { full < length pages.old.items }
    requires sorted { IsTrue (is_sorted name_cmp (all_pairs pages.old.items)) }
    requires filled { AreFilled pages.old.items }
    ensures ok { OnOk result (all_pairs pages.new.items ≡ put name_cmp name fid (all_pairs pages.old.items)) }
    ensures err { OnErr result (all_pairs pages.new.items ≡ all_pairs pages.old.items) }
    ensures filled { AreFilled pages.new.items }
{
    split(pages, guide, full)?;
    let at = page_for(pages, guide, &name);
    put_at(pages, at, name, fid)
}

// Binds a name. Fails for want of memory alone, and then changes nothing.
pub(crate) fn put(
    pages: &mut Vec<Vec<(Name, Fid)>>,
    guide: &mut Guide,
    name: Name,
    fid: Fid,
) -> Result<(), AllocError>
    requires sorted { IsTrue (is_sorted name_cmp (all_pairs pages.old.items)) }
    requires filled { AreFilled pages.old.items }
    ensures ok { OnOk result (all_pairs pages.new.items ≡ put name_cmp name fid (all_pairs pages.old.items)) }
    ensures err { OnErr result (all_pairs pages.new.items ≡ all_pairs pages.old.items) }
    ensures filled { AreFilled pages.new.items }
{
    if pages.is_empty() {
        return put_first(pages, name, fid);
    }
    let at = page_for(pages, guide, &name);
    if pages[at].len() < FULL {
        put_at(pages, at, name, fid)
    } else {
        put_split(pages, guide, at, name, fid)
    }
}

// Binds a bound name to another fid.
pub(crate) fn rebind(pages: &mut Vec<Vec<(Name, Fid)>>, guide: &Guide, name: &Name, fid: Fid)
    requires sorted { IsTrue (is_sorted name_cmp (all_pairs pages.old.items)) }
    requires filled { AreFilled pages.old.items }
    requires bound { IsSome (find name_cmp name.now (all_pairs pages.old.items)) }
    ensures pairs { all_pairs pages.new.items ≡ put name_cmp name.now fid (all_pairs pages.old.items) }
    ensures filled { AreFilled pages.new.items }
{
    if pages.is_empty() {
        return;
    }
    let at = page_for(pages, guide, name);
    rebind_at(pages, at, name, fid);
}

// Unbinds a name, where it is bound, and answers whether it was.
pub(crate) fn remove(pages: &mut Vec<Vec<(Name, Fid)>>, guide: &mut Guide, name: &Name) -> bool
    requires sorted { IsTrue (is_sorted name_cmp (all_pairs pages.old.items)) }
    requires filled { AreFilled pages.old.items }
    ensures pairs { all_pairs pages.new.items ≡ without name.now (all_pairs pages.old.items) }
    ensures filled { AreFilled pages.new.items }
    ensures was { result ≡ is_some (find name_cmp name.now (all_pairs pages.old.items)) }
{
    if pages.is_empty() {
        return false;
    }
    let at = page_for(pages, guide, name);
    remove_at(pages, guide, at, name)
}

// What a name is bound to.
pub(crate) fn find(pages: &[Vec<(Name, Fid)>], guide: &Guide, name: &Name) -> Option<Fid>
    requires sorted { IsTrue (is_sorted name_cmp (all_pairs pages.now)) }
    requires filled { AreFilled pages.now }
    ensures { result ≡ find name_cmp name.now (all_pairs pages.now) }
{
    if pages.is_empty() {
        return None;
    }
    let at = page_for(pages, guide, name);
    find_in(&pages[at], name)
}

// Whether pairs bind a fid, at whatever name.
fn binds_in(page: &[(Name, Fid)], fid: Fid) -> bool
    ensures { result ≡ any_binds fid page.now }
{
    page.iter().any(|pair| pair.1 == fid)
}

// Whether a fid is bound, at whatever name.
pub(crate) fn binds(pages: &[Vec<(Name, Fid)>], fid: Fid) -> bool
    ensures { result ≡ any_binds fid (all_pairs pages.now) }
{
    for page in pages {
        if binds_in(page, fid) {
            return true;
        }
    }
    false
}

// The pair at an index, from 0.
pub(crate) fn pair_at(pages: &[Vec<(Name, Fid)>], index: usize) -> Option<&(Name, Fid)>
    ensures { option_copied result ≡ slice_get (all_pairs pages.now) index }
{
    let mut left = index;
    for page in pages {
        if left < page.len() {
            return Some(&page[left]);
        }
        left -= page.len();
    }
    None
}

// A copy of names with what they are bound to.
fn copy_pairs(alloc: Global, items: &[(Name, Fid)]) -> Result<Vec<(Name, Fid)>, AllocError>
    ensures { IfOk result (λ v. v.items ≡ items.now) }
{
    let mut copy = Vec::new(alloc);
    for pair in items {
        let name = pair.0.copy()?;
        copy.push((name, pair.1))?;
    }
    Ok(copy)
}

// A copy of each page.
pub(crate) fn copy(
    alloc: Global,
    pages: &[Vec<(Name, Fid)>],
) -> Result<Vec<Vec<(Name, Fid)>>, AllocError>
    ensures pairs { IfOk result (λ v. all_pairs v.items ≡ all_pairs pages.now) }
    ensures filled { AreFilled pages.now → IfOk result (λ v. AreFilled v.items) }
{
    let mut copy = Vec::new(alloc);
    for page in pages {
        let page = copy_pairs(alloc, page)?;
        copy.push(page)?;
    }
    Ok(copy)
}
