//! The lists of targets whose scroll events are pending, by their documents' numbers.

ghost use Rattle.std.specs.Prelude.{◌≡◌, ◌≤◌, true, [], ◌++◌, ◌-◌, replicate, vec_len, vec_capacity, OnOk, OnErr, IsOk};
ghost use Rattle.std.specs.List.{list_any};
ghost use Rattle.page_model.specs.Lookups.{change_at, entry_or, put_at, is_same_container};
ghost use Rattle.page_model.specs.Scrolls.{with_listed};
ghost use Rattle.scrolling.specs.Pending.{seen_lists};
ghost use Rattle.container_model.specs.Seen.{seen_container, seen_containers};

use element_tree::{Container, DocumentId};
use std::alloc::AllocError;
use std::mem::replace;

fn is_listed(list: &[Container], target: Container) -> bool
    ensures { result ≡ list_any (λ each. is_same_container (seen_container target) (seen_container each)) list.now }
{
    list.contains(&target)
}

// Appends a target to a list unless it is already there, in which case nothing is allocated.
fn list_target(list: &mut Vec<Container>, target: Container) -> Result<(), AllocError>
    ensures listed { OnOk result (seen_containers list.new.items ≡ with_listed (seen_container target) (seen_containers list.old.items)) }
    ensures same { OnErr result (list.new.items ≡ list.old.items) }
    ensures there { list_any (is_same_container (seen_container target)) (seen_containers list.old.items) ≡ true → IsOk result }
{
    if !is_listed(list.as_slice(), target) {
        list.push(target)?;
    }
    Ok(())
}

// Extends the lists to this number with empty ones, for which there is capacity.
fn fill(lists: &mut Vec<Vec<Container>>, count: usize)
    requires { count ≤ vec_capacity lists.old }
    ensures lists { seen_lists lists.new.items ≡ seen_lists lists.old.items ++ replicate (count - vec_len lists.old) [] }
    ensures capacity { vec_capacity lists.new ≡ vec_capacity lists.old }
{
    while lists.len() < count {
        lists.push_reserved(Vec::new(*lists.allocator()));
    }
}

// Appends a target to the list of a document unless it is already there, in which case nothing is allocated.
pub(crate) fn add_pending(
    lists: &mut Vec<Vec<Container>>,
    document: DocumentId,
    target: Container,
) -> Result<(), AllocError>
    ensures added { OnOk result (seen_lists lists.new.items ≡ put_at [] document.0 (with_listed (seen_container target) (entry_or [] (seen_lists lists.old.items) document.0)) (seen_lists lists.old.items)) }
    ensures same { OnErr result (seen_lists lists.new.items ≡ seen_lists lists.old.items) }
    ensures there { list_any (is_same_container (seen_container target)) (entry_or [] (seen_lists lists.old.items) document.0) ≡ true → IsOk result }
{
    let place = document.0 as usize;
    if place < lists.len() {
        return list_target(&mut lists[place], target);
    }
    let mut list = Vec::new(*lists.allocator());
    list.push(target)?;
    lists.reserve(place + 1 - lists.len())?;
    fill(lists, place);
    lists.push_reserved(list);
    Ok(())
}

// Returns the list of a document.
pub(crate) fn list_of(lists: &[Vec<Container>], document: DocumentId) -> &[Container]
    ensures { seen_containers result.now ≡ entry_or [] (seen_lists lists.now) document.0 }
{
    let place = document.0 as usize;
    if place < lists.len() {
        lists[place].as_slice()
    } else {
        &[]
    }
}

// Takes the list of a document, leaving it empty.
pub(crate) fn take_list(lists: &mut Vec<Vec<Container>>, document: DocumentId) -> Vec<Container>
    ensures value { seen_containers result.items ≡ entry_or [] (seen_lists lists.old.items) document.0 }
    ensures taken { seen_lists lists.new.items ≡ change_at (λ list. []) document.0 (seen_lists lists.old.items) }
{
    let place = document.0 as usize;
    let empty = Vec::new(*lists.allocator());
    if place < lists.len() {
        replace(&mut lists[place], empty)
    } else {
        empty
    }
}
