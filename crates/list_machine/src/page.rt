//! What a search of a view is answered: the rows that match, in the order of the sort, and the page of them. The program runs this too.
pub mod bounds;
pub mod candidates;
pub mod paging;
pub mod request;
pub mod view;
