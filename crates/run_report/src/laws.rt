ghost use Rattle.std.specs.Prelude.{◌≡◌, ◌↔◌, ◌+◌, List, [], length, map};
ghost use Rattle.rdf_terms.specs.Lists.{IsIn};
ghost use Rattle.reachability.specs.declared.record.Entry.{Entry};
ghost use Rattle.reachability.specs.Reach.{Text};
ghost use Rattle.reachability.specs.Record.{FailedLinks};
ghost use Rattle.run_report.specs.Report.{documents, redirects, failures, failed_link};

/// A report has a line for each link of the record that was refused or couldn't be reached, and for
/// no other; so it has none exactly where no link failed.
pub fn failed_links_are_told()
    ensures lines { (entries : List Entry) (u : Text) → FailedLinks entries u ↔ IsIn (map failed_link (failures entries)) u }
    ensures none { (entries : List Entry) → (failures entries ≡ []) ↔ ((u : Text) → FailedLinks entries u → ⊥) }
{}

/// Of the totals in the last line the links that were looked up are the sum of the documents, the
/// redirects and the failures.
pub fn each_entry_is_counted_once()
    ensures { (entries : List Entry) → length entries ≡ documents entries + (redirects entries + length (failures entries)) }
{}
