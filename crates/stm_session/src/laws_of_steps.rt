// The laws that the steps of a command stand on.
ghost use Rattle.stm_session.specs.StepLaws.{StepLaws};

use stm_journal::{
    a_beginning_leaves_the_old_segments_or_one_more, a_journal_is_sound,
    an_entry_leaves_the_old_state_or_the_new, changes_of_kept_pages_keep_the_flashes,
    keeping_a_page_keeps_the_flashes, pages_given_back_are_the_flash_before,
};
use stm_wire::{awaited_is_limited, harmless_is_kept, pages_are_the_flash, sending_is_harmless};

/// All laws of the line and of the journal that a step needs.
pub fn step_laws()
    ensures { StepLaws }
{
    sending_is_harmless();
    harmless_is_kept();
    pages_are_the_flash();
    awaited_is_limited();
    a_journal_is_sound();
    an_entry_leaves_the_old_state_or_the_new();
    a_beginning_leaves_the_old_segments_or_one_more();
    keeping_a_page_keeps_the_flashes();
    changes_of_kept_pages_keep_the_flashes();
    pages_given_back_are_the_flash_before();
}
