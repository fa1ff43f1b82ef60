//! What holds of all records.

ghost use Rattle.std.specs.Prelude.{◌≡◌, List, Ok, flat_map, map};
ghost use Rattle.std.specs.List.{AllByRecursion};
ghost use Rattle.farm_base.specs.declared.site.Site.{Site};
ghost use Rattle.farm_base.specs.CheckedSite.{IsChecked};
ghost use Rattle.farm_record.specs.declared.event.Event.{Event};
ghost use Rattle.farm_record.specs.Lines.{line_of};
ghost use Rattle.record_reader.specs.Reading.{said_of};
ghost use Rattle.record_reader.specs.Telling.{CanTell, names_of, said_in_record};

/// The lines of events are read as these events, in their order, and as nothing else.
pub fn what_is_told_is_read()
    ensures { (site : Site) (events : List Event) → IsChecked site → AllByRecursion (CanTell site) events → said_in_record site (flat_map (line_of (names_of site)) events) ≡ Ok (map said_of events) }
{}
