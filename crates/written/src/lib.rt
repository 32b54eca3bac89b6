//! Tables as they are written, and the laws of writing and reading them.
#![tactic(auto)]

ghost use Rattle.written.specs.Laws.{MarksComeBack, BasesComeBack, SubtablesComeBack, ExtensionsComeBack, LookupsComeBack, LinksLead, Lengths};

/// What is written of values is read back as those values.
pub fn reading_undoes_writing()
    ensures marks { MarksComeBack }
    ensures bases { BasesComeBack }
    ensures subtables { SubtablesComeBack }
    ensures extensions { ExtensionsComeBack }
    ensures lookups { LookupsComeBack }
{}

/// The links of a table lead to the vertices that its value names, and to no others.
pub fn links_lead_where_read()
    ensures { LinksLead }
{}

/// The lengths of the tables.
pub fn lengths_add_up()
    ensures { Lengths }
{}
