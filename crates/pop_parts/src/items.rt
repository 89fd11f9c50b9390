//! What `show_parts` needs to know about an item.
ghost use Rattle.std.specs.Prelude.{◌≡◌, is_some, not, true};
ghost use Rattle.pop_parts.specs.ties.Items.{entry_in, is_failure};

use pop_input::Item;

/// Returns whether no item is left.
pub(crate) fn is_end(item: &Item) -> bool
    ensures { result ≡ not (is_some (entry_in item.now)) }
{
    match item {
        Item::End => true,
        Item::Sound(_, _) | Item::Faulty(_, _) => false,
    }
}

/// Returns whether the item reports a failed device.
pub(crate) fn reports_device_failure(item: &Item) -> bool
    ensures { result ≡ is_failure (entry_in item.now) }
{
    match item {
        Item::Faulty(fault, _) => fault.kind.is_device_failure(),
        Item::Sound(_, _) | Item::End => false,
    }
}
