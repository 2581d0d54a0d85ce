// Settings that are within their ranges.

ghost use Rattle.std.specs.Prelude.{◌≡◌, true, ◌≤◌, length};
ghost use Rattle.rules.specs.Limits.{max_budget, max_entries, max_pieces};
ghost use Rattle.rules.specs.Call as call;
ghost use Rattle.input.specs.Input.{options_of};

use crate::Settings;

// The settings of a call, where they are within their ranges.
#[derive(Clone, Copy)]
pub struct Accepted<'a> {
    pub settings: Settings<'a>,
    pub ghost fit: { call.settings_fit settings.budget (options_of settings) ≡ true },
    pub ghost budget_fits: { settings.budget ≤ max_budget },
    pub ghost entries_some: { 1 ≤ settings.entries },
    pub ghost entries_fit: { settings.entries ≤ max_entries },
    pub ghost chain_fits: { length settings.chain.now ≤ max_pieces },
}
