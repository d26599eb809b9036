mod copies;
mod encoding;
mod fixtures;
mod limits;
mod replies;
mod requests;
