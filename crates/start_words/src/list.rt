//! Where a server keeps its state.

/// As whom the members of a cluster are asked.
#[derive(Clone, Copy, Debug)]
pub struct UserWords<'w> {
    pub name: &'w str,
    /// The path of the file of the user's password.
    pub password_file: &'w str,
}

/// A list in etcd.
#[derive(Clone, Copy, Debug)]
pub struct ListWords<'w> {
    /// Where the members of its cluster listen: URLs, with commas between them.
    pub members: &'w str,
    /// Its keys begin with this.
    pub prefix: &'w str,
    pub user: Option<UserWords<'w>>,
}

/// Where a server keeps its state.
#[derive(Clone, Copy, Debug)]
pub enum StatePlace<'w> {
    /// It keeps none.
    Nowhere,
    /// In the file of this path.
    File(&'w str),
    /// In this list.
    Etcd(ListWords<'w>),
}
