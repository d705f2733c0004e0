// Workers are handed to threads.
use crate::page_worker::PageWorker;
use page_datum::Pages;
use page_net::{Door, Sent};
use page_office::Clerk;
use set_publisher::{Named, Notice};
use std::sync::Wait;

impl<
    'r,
    D: Door + Send,
    P: Pages + Drop + Send + Sync,
    S: Notice<P> + Send + Sync,
    C: Clerk<P, S, J> + Send,
    J: Named + Send,
    R: Wait + Sync,
> Sent for PageWorker<'r, D, P, S, C, J, R> {}
