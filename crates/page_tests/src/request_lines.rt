//! Lines that are often written, as docs/grammar.md has them.

/// A line that is no request, where it stops being one, and the line in its place.
pub(crate) const NO_REQUESTS: &[(&str, &str, &str)] = &[
    (
        "http://host/Sales?$apply=identity",
        "0",
        "/Sales?$apply=identity",
    ),
    ("GET Sales?$apply=identity", "0", "Sales?$apply=identity"),
    ("\"Sales?$apply=identity\"", "0", "Sales?$apply=identity"),
    ("Sales?=identity", "0", "Sales?$apply=identity"),
    ("Sales", "0", "Sales?$apply=identity"),
    (
        "Sales('1')?$apply=identity",
        "0",
        "Sales?$apply=filter(ID eq 1)",
    ),
    (
        "Sales?$filter=Amount gt 5",
        "0",
        "Sales?$apply=filter(Amount gt 5)",
    ),
    (
        "Sales?$apply=identity&$top=1",
        "1",
        "Sales?$apply=identity/top(1)",
    ),
    ("Sales?$apply =identity", "0", "Sales?$apply=identity"),
    ("Sales?$apply= identity", "1", "Sales?$apply=identity"),
    ("Sales?$apply=identity ", "1", "Sales?$apply=identity"),
    (
        "Sales?$apply=identity / top(1)",
        "1",
        "Sales?$apply=identity/top(1)",
    ),
    (
        "Sales?$apply=filter (Amount gt 5)",
        "1",
        "Sales?$apply=filter(Amount gt 5)",
    ),
    (
        "Sales?$apply=filter(not(Amount gt 5))",
        "1",
        "Sales?$apply=filter(not (Amount gt 5))",
    ),
    (
        "Sales?$apply=filter(Amount+gt+5)",
        "1",
        "Sales?$apply=filter(Amount%20gt%205)",
    ),
    ("Sales?$apply=", "1", "Sales?$apply=identity"),
    ("Sales?$apply=identity/", "2", "Sales?$apply=identity"),
    (
        "Sales?$apply=identity/filter(Amount gt 5",
        "2",
        "Sales?$apply=identity/filter(Amount gt 5)",
    ),
    (
        "Sales?$apply=Filter(Amount gt 5)",
        "1",
        "Sales?$apply=filter(Amount gt 5)",
    ),
    (
        "Sales?$apply=filter(Amount GT 5)",
        "1",
        "Sales?$apply=filter(Amount gt 5)",
    ),
    (
        "Sales?$apply=filter(Amount == 5)",
        "1",
        "Sales?$apply=filter(Amount eq 5)",
    ),
    (
        "Sales?$apply=filter(Amount > 5)",
        "1",
        "Sales?$apply=filter(Amount gt 5)",
    ),
    (
        "Sales?$apply=filter(Amount gt 5 && ID lt 3)",
        "1",
        "Sales?$apply=filter(Amount gt 5 and ID lt 3)",
    ),
    (
        "Sales?$apply=filter(Amount*2 gt 5)",
        "1",
        "Sales?$apply=filter(Amount mul 2 gt 5)",
    ),
    (
        "Sales?$apply=filter(Amount div 2 gt 5)",
        "1",
        "Sales?$apply=filter(Amount gt 5 mul 2)",
    ),
    (
        "Sales?$apply=filter(ID in (1,2))",
        "1",
        "Sales?$apply=filter(ID eq 1 or ID eq 2)",
    ),
    (
        "Sales?$apply=filter(tolower(CustomerID) eq 'c1')",
        "1",
        "Sales?$apply=filter(CustomerID eq 'c1' or CustomerID eq 'C1')",
    ),
    (
        "Sales?$apply=filter(CustomerID eq \"C1\")",
        "1",
        "Sales?$apply=filter(CustomerID eq 'C1')",
    ),
    (
        "Sales?$apply=filter(Customer/Name eq 'O'Hara')",
        "1",
        "Sales?$apply=filter(Customer/Name eq 'O''Hara')",
    ),
    (
        "Sales?$apply=filter(Amount gt .5)",
        "1",
        "Sales?$apply=filter(Amount gt 0.5)",
    ),
    (
        "Sales?$apply=filter(Amount gt 1e3)",
        "1",
        "Sales?$apply=filter(Amount gt 1000)",
    ),
    (
        "Sales?$apply=filter(Amount gt 1,000)",
        "1",
        "Sales?$apply=filter(Amount gt 1000)",
    ),
    (
        "Sales?$apply=filter(Customer/Since gt 2020-01-01T00:00:00Z)",
        "1",
        "Sales?$apply=filter(Customer/Since gt 2020-01-01)",
    ),
    (
        "Sales?$apply=aggregate(Amount with average as A)",
        "1",
        "Sales?$apply=filter(Amount ne null)/aggregate(Amount with sum as T,$count as N)",
    ),
    (
        "Sales?$apply=aggregate(sum(Amount) as T)",
        "1",
        "Sales?$apply=aggregate(Amount with sum as T)",
    ),
    (
        "Sales?$apply=aggregate(Amount with sum)",
        "1",
        "Sales?$apply=aggregate(Amount with sum as T)",
    ),
    (
        "Sales?$apply=aggregate($count)",
        "1",
        "Sales?$apply=aggregate($count as N)",
    ),
    (
        "Sales?$apply=compute(Amount mul 2)",
        "1",
        "Sales?$apply=compute(Amount mul 2 as D)",
    ),
    (
        "Customers?$apply=join(Sales)",
        "1",
        "Customers?$apply=join(Sales as S)",
    ),
    (
        "Sales?$apply=aggregate($count as and)",
        "1",
        "Sales?$apply=aggregate($count as N)",
    ),
    (
        "Sales?$apply=groupby(CustomerID)",
        "1",
        "Sales?$apply=groupby((CustomerID))",
    ),
    (
        "Sales?$apply=rollup(CustomerID,OrgID)",
        "1",
        "Sales?$apply=groupby((rollup(CustomerID,OrgID)))",
    ),
    (
        "Sales?$apply=topcount(Amount,1)",
        "1",
        "Sales?$apply=topcount(1,Amount)",
    ),
    ("Sales?$apply=top(-1)", "1", "Sales?$apply=top(0)"),
    (
        "Sales?$apply=expand(Customer)",
        "1",
        "Customers?$apply=join(Sales as S)",
    ),
    (
        "Sales?$apply=topcount(1,Amount desc)",
        "1",
        "Sales?$apply=topcount(1,Amount)",
    ),
    (
        "Customers?$apply=groupby((year(Since)))",
        "1",
        "Customers?$apply=compute(year(Since) as Y)/groupby((Y))",
    ),
    (
        "Sales?$apply=filter(Customer/Since gt 2020-1-1)",
        "1",
        "Sales?$apply=filter(Customer/Since gt 2020-01-01)",
    ),
    (
        "Sales?$apply=groupby((rollup(OrgID)))",
        "1",
        "Sales?$apply=groupby((rollup($all,OrgID)))",
    ),
];

/// A request that is refused, the code and the body of its answer, and the line in its place.
pub(crate) const REFUSED: &[(&str, &str, &str, &str)] = &[
    (
        "sales?$apply=identity",
        "404",
        "{\"error\":{\"code\":\"NotFound\",\"message\":\"no such entity set\",\"target\":\"sales\"}}",
        "Sales?$apply=identity",
    ),
    (
        "Sales?$apply=filter(ID eq '1')",
        "400",
        "{\"error\":{\"code\":\"Type\",\"message\":\"the transformation has no type\",\"target\":\"1\"}}",
        "Sales?$apply=filter(ID eq 1)",
    ),
    (
        "Sales?$apply=filter(Customer/Since gt '2020-01-01')",
        "400",
        "{\"error\":{\"code\":\"Type\",\"message\":\"the transformation has no type\",\"target\":\"1\"}}",
        "Sales?$apply=filter(Customer/Since gt 2020-01-01)",
    ),
    (
        "Sales?$apply=filter(Amount eq NULL)",
        "400",
        "{\"error\":{\"code\":\"Type\",\"message\":\"the transformation has no type\",\"target\":\"1\"}}",
        "Sales?$apply=filter(Amount eq null)",
    ),
    (
        "Sales?$apply=filter(not ID eq 1)",
        "400",
        "{\"error\":{\"code\":\"Type\",\"message\":\"the transformation has no type\",\"target\":\"1\"}}",
        "Sales?$apply=filter(not (ID eq 1))",
    ),
    (
        "Sales?$apply=filter(Country eq 'US')",
        "400",
        "{\"error\":{\"code\":\"Type\",\"message\":\"the transformation has no type\",\"target\":\"1\"}}",
        "Sales?$apply=filter(Customer/Country eq 'US')",
    ),
    (
        "Sales?$apply=groupby((CustomerID))/aggregate(Amount with sum as T)",
        "400",
        "{\"error\":{\"code\":\"Type\",\"message\":\"the transformation has no type\",\"target\":\"2\"}}",
        "Sales?$apply=groupby((CustomerID),aggregate(Amount with sum as T))",
    ),
    (
        "Sales?$apply=compute(Amount mul 2 as Amount)",
        "400",
        "{\"error\":{\"code\":\"Type\",\"message\":\"the transformation has no type\",\"target\":\"1\"}}",
        "Sales?$apply=compute(Amount mul 2 as D)",
    ),
    (
        "Sales?$apply=join(Customer as C)",
        "400",
        "{\"error\":{\"code\":\"Type\",\"message\":\"the transformation has no type\",\"target\":\"1\"}}",
        "Sales?$apply=compute(Customer/Country as Country)",
    ),
    (
        "Sales?$apply=aggregate(Amount gt 5 with sum as N)",
        "400",
        "{\"error\":{\"code\":\"Type\",\"message\":\"the transformation has no type\",\"target\":\"1\"}}",
        "Sales?$apply=filter(Amount gt 5)/aggregate($count as N)",
    ),
    (
        "Sales?$apply=compute(Amount mul Amount mul Amount mul Amount mul Amount as P)",
        "400",
        "{\"error\":{\"code\":\"Type\",\"message\":\"the transformation has no type\",\"target\":\"1\"}}",
        "Sales?$apply=compute(Amount mul Amount as P)",
    ),
    (
        "Sales?$apply=groupby((Customer))",
        "400",
        "{\"error\":{\"code\":\"Type\",\"message\":\"the transformation has no type\",\"target\":\"1\"}}",
        "Sales?$apply=groupby((Customer/ID))",
    ),
    (
        "Customers?$apply=aggregate(Sales/Amount with sum as T)",
        "400",
        "{\"error\":{\"code\":\"Type\",\"message\":\"the transformation has no type\",\"target\":\"1\"}}",
        "Customers?$apply=join(Sales as S)/aggregate(S/Amount with sum as T)",
    ),
    (
        "Customers?$apply=join(Sales as Sales)",
        "400",
        "{\"error\":{\"code\":\"Type\",\"message\":\"the transformation has no type\",\"target\":\"1\"}}",
        "Customers?$apply=join(Sales as S)",
    ),
    (
        "Sales?$apply=groupby((rolluprecursive($root/Orgs,Orgtree,OrgID)))",
        "400",
        "{\"error\":{\"code\":\"Type\",\"message\":\"the transformation has no type\",\"target\":\"1\"}}",
        "Sales?$apply=groupby((rolluprecursive($root/Orgs,OrgTree,OrgID)))",
    ),
    (
        "Sales?$apply=groupby((rolluprecursive($root/Org,OrgTree,OrgID)))",
        "400",
        "{\"error\":{\"code\":\"Type\",\"message\":\"the transformation has no type\",\"target\":\"1\"}}",
        "Sales?$apply=groupby((rolluprecursive($root/Orgs,OrgTree,OrgID)))",
    ),
    (
        "Sales?$apply=filter(Amout gt 5)",
        "400",
        "{\"error\":{\"code\":\"Type\",\"message\":\"the transformation has no type\",\"target\":\"1\"}}",
        "Sales?$apply=filter(Amount gt 5)",
    ),
    (
        "Sales?$apply=aggregate(Forecast)",
        "400",
        "{\"error\":{\"code\":\"Type\",\"message\":\"the transformation has no type\",\"target\":\"1\"}}",
        "Sales?$apply=aggregate(Amount with sum as T)",
    ),
    (
        "Customers?$apply=join(Sales as S)/filter(Amount gt 5)",
        "400",
        "{\"error\":{\"code\":\"Type\",\"message\":\"the transformation has no type\",\"target\":\"2\"}}",
        "Customers?$apply=join(Sales as S)/filter(S/Amount gt 5)",
    ),
    (
        "Sales?$apply=groupby((Customer/Name))/orderby(Name)",
        "400",
        "{\"error\":{\"code\":\"Type\",\"message\":\"the transformation has no type\",\"target\":\"2\"}}",
        "Sales?$apply=groupby((Customer/Name))/orderby(Customer/Name)",
    ),
    (
        "Sales?$apply=filter(Org eq null)",
        "400",
        "{\"error\":{\"code\":\"Type\",\"message\":\"the transformation has no type\",\"target\":\"1\"}}",
        "Sales?$apply=filter(OrgID eq null)",
    ),
    (
        "Sales?$apply=compute(Amount mul 2 as D,D add 1 as E)",
        "400",
        "{\"error\":{\"code\":\"Type\",\"message\":\"the transformation has no type\",\"target\":\"1\"}}",
        "Sales?$apply=compute(Amount mul 2 as D)/compute(D add 1 as E)",
    ),
    (
        "Sales?$apply=aggregate(Amount with sum as T,ID with sum as T)",
        "400",
        "{\"error\":{\"code\":\"Type\",\"message\":\"the transformation has no type\",\"target\":\"1\"}}",
        "Sales?$apply=aggregate(Amount with sum as T,ID with sum as U)",
    ),
    (
        "Sales?$apply=concat(compute(1 as X),compute('a' as X))",
        "400",
        "{\"error\":{\"code\":\"Type\",\"message\":\"the transformation has no type\",\"target\":\"1\"}}",
        "Sales?$apply=concat(compute(1 as X),compute('a' as Y))",
    ),
    (
        "Sales?$apply=groupby((rollup($all,OrgID),rollup($all,CustomerID)))",
        "400",
        "{\"error\":{\"code\":\"Type\",\"message\":\"the transformation has no type\",\"target\":\"1\"}}",
        "Sales?$apply=groupby((rollup($all,OrgID,CustomerID)))",
    ),
    (
        "Sales?$apply=descendants($root/Orgs,OrgTree,OrgID,filter(ParentID eq 'US'))",
        "400",
        "{\"error\":{\"code\":\"Type\",\"message\":\"the transformation has no type\",\"target\":\"1\"}}",
        "Sales?$apply=descendants($root/Orgs,OrgTree,OrgID,filter(Org/ParentID eq 'US'))",
    ),
];
