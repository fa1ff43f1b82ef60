//! What a text spells, and has no fault where it spells a site; worked examples: whose names are unknown, which links no
//! site may have, and what stands twice.

ghost use Rattle.std.specs.Prelude.{◌≡◌, ℕ, List, [], ◌∷◌, codes, map, None, true, false};
ghost use Rattle.std.specs.List.{Contains};
ghost use Rattle.std.specs.Str.{IsUtf8};
ghost use Rattle.dia_dict.specs.Dictionary.{row_of};
ghost use Rattle.dia_grammar.specs.Grammar.{is_standard};
ghost use Rattle.farm_base.specs.declared.site.Site.{Site};
ghost use Rattle.farm_site.specs.FaultExample.{entry_of_link, entry_of_node, five_nodes, link, one_link};
ghost use Rattle.farm_site.specs.Faults.{AreWhyOctets, IsLinkFault, IsNodeFault, IsWhyText, is_bad_link};
ghost use Rattle.farm_site.specs.Spelling.{IsSiteFile, Spells};
ghost use Rattle.farm_site.specs.declared.fault.SiteFault.{SiteFault};
ghost use Rattle.farm_site.specs.declared.fault.SiteFault.TheVariants.{OutOfMemory, Twice, UnknownName};
ghost use Rattle.farm_site.specs.declared.key.Key.TheVariants.{From, Name, To};

/// A text spells one site at most.
pub fn one_site()
    ensures { (text : List ℕ) (a b : Site) → Spells text a → Spells text b → a ≡ b }
{}

/// Of a site file no fault could be told but want of memory.
pub fn site_files_have_no_fault()
    ensures text { (text : List ℕ) (site : Site) (fault : SiteFault) → IsSiteFile text site → IsWhyText text fault → fault ≡ OutOfMemory }
    ensures octets { (octets : List ℕ) (site : Site) (fault : SiteFault) → IsUtf8 octets → IsSiteFile octets site → AreWhyOctets octets fault → fault ≡ OutOfMemory }
{}

/// No site file makes a code known that is known without it: none with a row in the dictionary, and none of those from 1 to 461.
pub fn known_codes_are_none_of_the_dictionary()
    ensures row { (text : List ℕ) (site : Site) (code : ℕ) → IsSiteFile text site → Contains site.known code → row_of code 0 ≡ None }
    ensures standard { (text : List ℕ) (site : Site) (code : ℕ) → IsSiteFile text site → Contains site.known code → is_standard code 0 ≡ false }
{}

/// A link of a node with itself is bad, of two clients, of two fronts, and of two nodes that are linked already, in
/// either direction; one of two relays, of a relay and a front, or of a client and either is not.
pub fn links_join_two_nodes_once()
    ensures bad { map (is_bad_link five_nodes one_link) (link 0 0 ∷ link 3 4 ∷ link 2 2 ∷ link 3 0 ∷ link 0 3 ∷ []) ≡ true ∷ true ∷ true ∷ true ∷ true ∷ [] }
    ensures good { map (is_bad_link five_nodes one_link) (link 0 1 ∷ link 0 2 ∷ link 3 2 ∷ link 4 0 ∷ link 3 1 ∷ []) ≡ false ∷ false ∷ false ∷ false ∷ false ∷ [] }
{}

/// An end of a link is unknown where no node has its name, without ASCII case.
pub fn ends_are_nodes_of_the_file()
    ensures unknown { IsLinkFault five_nodes [] (entry_of_link (codes "c1.example") (codes "r3.example")) (UnknownName To) }
    ensures known { ¬ (IsLinkFault five_nodes [] (entry_of_link (codes "C1.Example") (codes "r3.example")) (UnknownName From)) }
{}

/// A name stands twice where a node before has it, without ASCII case.
pub fn names_stand_once()
    ensures twice { IsNodeFault five_nodes (entry_of_node (codes "R1.Example")) (Twice Name) }
    ensures once { ¬ (IsNodeFault five_nodes (entry_of_node (codes "r3.example")) (Twice Name)) }
{}
