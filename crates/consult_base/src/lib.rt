//! Knowledge bases as they are consulted.
#![tactic(auto)]

mod knowledge_base;

pub use knowledge_base::KnowledgeBase;
